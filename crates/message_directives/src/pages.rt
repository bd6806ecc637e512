//! Pages of bugs.

ghost use Rattle.std.specs.Prelude.{◌≡◌, false, Some, IfOk, IfErr, ⊤};
ghost use Rattle.bug_record.specs.Images.{member_at};
ghost use Rattle.desk_text.specs.Pages.{page_in};
ghost use Rattle.store_contract.specs.Store.{Holds, IsImageOf};
ghost use Rattle.store_contract.specs.Tried.{LeavesTried};
ghost use Rattle.message_directives.specs.Questions.{page_told, IsTold, faults_after_question};

use crate::told::{QuestionFault, Told};
use bug_record::SetImage;
use desk_text::{BugPage, bug_text, no_bug_answer};
use std::alloc::Global;
use store_contract::Records;

// The text of a page.
fn text_of(alloc: Global, page: &BugPage) -> Result<Told, QuestionFault>
    ensures text { IfOk result (λ told. told.text.items
        ≡ page_in page.now.image page.now.number page.now.waiting (member_at page.now.image.members page.now.number)) }
    ensures answered { IfOk result (λ told. told.refused ≡ false) }
    ensures memory { IfErr result (λ fault. fault ≡ QuestionFault.Memory) }
{
    let mut text = Vec::new(alloc);
    bug_text(alloc, &mut text, page)?;
    Ok(Told {
        text,
        refused: false,
    })
}

// The page of a bug of the set that has this image.
fn page_at<S: Records>(
    alloc: Global,
    store: &mut S,
    image: SetImage,
    number: u64,
) -> Result<Told, QuestionFault>
    ensures answer { Holds S.is_kept S.is_honest store.old store.new (IsImageOf (S.desk store.old) number (Some image)
        → IsTold (page_told (S.desk store.old) number) ⊤ (S.desk store.old) result (S.desk store.new)) }
    ensures stays { S.keeping store.new ≡ S.keeping store.old }
    ensures crash { Holds S.is_kept S.is_honest store.old store.new
        (LeavesTried S.leaves store.old store.new (S.keeping store.old) (S.desk store.old) (S.desk store.new) (S.desk store.new)) }
    ensures count { S.faults store.new ≡ faults_after_question result (S.faults store.old) }
{
    match store.waiting_on(number) {
        Ok(waiting) => text_of(
            alloc,
            &BugPage {
                image,
                number,
                waiting,
            },
        ),
        Err(fault) => Err(QuestionFault::Store(fault)),
    }
}

/// The page of the bug of this number.
/// It is refused where there is none.
/// The store stays as it was.
/// This is this project's own rule.
///
/// # Errors
///
/// `Store` where the store failed; `Memory` where there was none for the text.
pub fn page_of<S: Records>(alloc: Global, store: &mut S, number: u64) -> Result<Told, QuestionFault>
    ensures answer { Holds S.is_kept S.is_honest store.old store.new
        (IsTold (page_told (S.desk store.old) number) ⊤ (S.desk store.old) result (S.desk store.new)) }
    ensures stays { S.keeping store.new ≡ S.keeping store.old }
    ensures crash { Holds S.is_kept S.is_honest store.old store.new
        (LeavesTried S.leaves store.old store.new (S.keeping store.old) (S.desk store.old) (S.desk store.new) (S.desk store.new)) }
    ensures count { S.faults store.new ≡ faults_after_question result (S.faults store.old) }
{
    let Some(image) = store.set_of(number)? else {
        let text = no_bug_answer(alloc, number)?;
        return Ok(Told {
            text,
            refused: true,
        });
    };
    page_at(alloc, store, image, number)
}
