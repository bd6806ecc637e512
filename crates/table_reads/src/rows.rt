//! Rows of lists, by number and by severity.

ghost use Rattle.std.specs.Prelude.{◌≡◌, ℕ, ◌==◌, Some, filter, flat_map, IfOk, OnOk, if◌then◌else◌};
ghost use Rattle.std.specs.BTreeMap.{get};
ghost use Rattle.std.specs.List.Sorted.{IsStrictlySortedBy};
ghost use Rattle.std.specs.Map.{keys_of, values_of};
ghost use Rattle.std.specs.Option.{option_or};
ghost use Rattle.std.specs.Ordering.{nat_cmp};
ghost use Rattle.bug_record.specs.Severities.{all_severities};
ghost use Rattle.store_keys.specs.Listing.{is_row_of};
ghost use Rattle.table_sets.specs.Listed.{row_fields};
ghost use Rattle.table_reads.specs.Rows.{row_with, row_among};

use bug_record::{ListRow, Member, Sequence};
use std::alloc::{AllocError, Global};
use std::collections::BTreeMap;
use store_keys::by_severity;
use table_content::SetFields;
use table_sets::RowFields;

// What rows have of a set with these fields; `None` where it is archived.
pub(crate) fn row_fields(fields: &SetFields) -> Option<RowFields>
    ensures { result ≡ row_fields fields.now }
{
    if fields.archived {
        return None;
    }
    Some(RowFields {
        severity: fields.severity,
        closed: fields.closed,
    })
}

// The row of a bug of a set.
fn row_with(fields: RowFields, member: &Member) -> Result<ListRow, AllocError>
    ensures { IfOk result (λ row. row ≡ row_with fields member.now) }
{
    Ok(ListRow {
        number: member.number,
        severity: fields.severity,
        closed: fields.closed,
        title: member.title.copy()?,
    })
}

// The row of a bug of a set comes into the map.
fn put_row(
    rows: &mut BTreeMap<u64, ListRow>,
    fields: RowFields,
    member: &Member,
) -> Result<(), AllocError>
    ensures { OnOk result ((n : ℕ) → get nat_cmp rows.new n
        ≡ (if member.now.number == n then Some (row_with fields member.now) else get nat_cmp rows.old n)) }
{
    let row = row_with(fields, member)?;
    rows.insert(member.number, row)?;
    Ok(())
}

// The rows of these bugs of a set come into the map.
pub(crate) fn put_rows(
    rows: &mut BTreeMap<u64, ListRow>,
    fields: RowFields,
    members: &[Member],
) -> Result<(), AllocError>
    ensures { OnOk result ((n : ℕ) → get nat_cmp rows.new n ≡ option_or (row_among fields members.now n) (get nat_cmp rows.old n)) }
{
    for member in members {
        put_row(rows, fields, member)?;
    }
    Ok(())
}

// The rows of the map, by number.
fn by_number(alloc: Global, rows: BTreeMap<u64, ListRow>) -> Result<Vec<ListRow>, AllocError>
    ensures value { IfOk result (λ listed. listed.items ≡ values_of rows.entries) }
    ensures ordered { IsStrictlySortedBy nat_cmp (keys_of rows.entries) }
{
    let mut listed = Vec::new(alloc);
    for (_, row) in rows {
        listed.push(row)?;
    }
    Ok(listed)
}

// The rows of the map by severity, from critical to wishlist, and then by number.
pub(crate) fn sorted_rows(
    alloc: Global,
    rows: BTreeMap<u64, ListRow>,
) -> Result<Sequence<ListRow>, AllocError>
    ensures value { IfOk result (λ sorted. sorted ≡ flat_map (λ severity. filter (is_row_of severity) (values_of rows.entries)) all_severities) }
    ensures ordered { IsStrictlySortedBy nat_cmp (keys_of rows.entries) }
{
    let rows = by_number(alloc, rows)?;
    by_severity(alloc, rows)
}
