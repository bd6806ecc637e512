//! The rows of the bugs of a desk in memory whose shared fields pass a test.
//! A row is made where the image of its bug's set is at hand: it is not looked up by its number.

ghost use Rattle.std.specs.Prelude.{◌≡◌, ◌++◌, ℕ, Some, IfOk, OnOk};
ghost use Rattle.std.specs.List.{Contains};
ghost use Rattle.version_nodes.specs.Trees.{Ancestry};
ghost use Rattle.bug_record.specs.Asked.{numbers_where};
ghost use Rattle.bug_record.specs.Desk.{IsSound};
ghost use Rattle.bug_record.specs.Sets.{has, IsAscending};
ghost use Rattle.bug_record.specs.Rows.{rows_of};
ghost use Rattle.bug_record.specs.declared.row.ListRow.{ListRow as SeenRow};
ghost use Rattle.store_sets.specs.Plain.{desk_of};
ghost use Rattle.store_sets.specs.Passing.{test_of, member_row, set_rows, rows_there, row_numbers};
ghost use Rattle.store_sets.specs.Sums.{IsSumAsked};

use crate::bug_sets::BugSets;
use crate::passing::{Question, image_passing, sum_asked};
use crate::places::Place;
use bug_record::{ListRow, Member, SetImage};
use std::alloc::{AllocError, Global};

// The row of a bug of a set, whose title shares the memory of the bug's.
fn member_row(image: &SetImage, member: &Member) -> Result<ListRow, AllocError>
    ensures { IfOk result (λ row. row ≡ member_row image.now member.now) }
{
    Ok(ListRow {
        number: member.number,
        severity: image.shared.fields().severity,
        closed: image.shared.fields().closed,
        title: member.title.copy()?,
    })
}

// Adds the rows of the bugs of a set.
fn add_set_rows(rows: &mut Vec<ListRow>, image: &SetImage) -> Result<(), AllocError>
    ensures { OnOk result (rows.new.items ≡ rows.old.items ++ set_rows (Some image.now)) }
{
    for member in image.members.as_slice() {
        rows.push(member_row(image, member)?)?;
    }
    Ok(())
}

// Adds the rows of the set whose image stands at a place, where the answer is yes of its bugs.
fn add_rows(
    rows: &mut Vec<ListRow>,
    place: &Place,
    question: Question,
    sum: Option<u32>,
) -> Result<(), AllocError>
    requires { IsSumAsked question sum }
    ensures { OnOk result (rows.new.items ≡ rows.old.items ++ rows_there (test_of question.entry) place.now) }
{
    match image_passing(place, question, sum) {
        Some(image) => add_set_rows(rows, image),
        None => Ok(()),
    }
}

// The rows by their numbers, one of each number.
// They are sorted where they stand: it takes no memory, and can't fail.
fn in_number_order(mut rows: Vec<ListRow>) -> Vec<ListRow>
    ensures ascending { IsAscending (row_numbers result.items) }
    ensures numbers { (n : ℕ) → has (row_numbers result.items) n ≡ has (row_numbers rows.items) n }
    ensures rows { (row : SeenRow) → Contains result.items row → Contains rows.items row }
{
    rows.sort_unstable_by_key(|row| row.number);
    rows.dedup_by_key(|row| row.number);
    rows
}

impl BugSets {
    /// The rows of the bugs of which the answer is yes, by their numbers.
    /// Each set is looked at once, not once for each of its bugs, and the rows are sorted once.
    /// The only error is that there is no memory for the rows.
    pub(crate) fn rows_passing(
        &self,
        alloc: Global,
        question: Question,
    ) -> Result<Vec<ListRow>, AllocError>
        ensures { (tree : Ancestry) (next : ℕ) → IsSound (desk_of self.now tree next)
            → IfOk result (λ rows. rows.items ≡ rows_of (desk_of self.now tree next).bug
            (numbers_where (test_of question.entry) (desk_of self.now tree next))) }
    {
        let sum = sum_asked(question);
        let mut rows = Vec::new(alloc);
        for place in self.places.values() {
            add_rows(&mut rows, place, question, sum)?;
        }
        Ok(in_number_order(rows))
    }
}
