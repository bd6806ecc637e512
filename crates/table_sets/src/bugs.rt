//! The bugs of sets.

ghost use Rattle.std.specs.Prelude.{◌≡◌, true, List, [], ◌∷◌, IfOk, IfErr};
ghost use Rattle.std.specs.Option.{option_map_or};
ghost use Rattle.sqlite.specs.Held.{state};
ghost use Rattle.bug_record.specs.declared.bug.Member.{Member as SeenMember};
ghost use Rattle.base_faults.specs.declared.store_fault.StoreFault.TheVariants.{Memory};
ghost use Rattle.table_content.specs.declared.edit.Edit.TheVariants.{PutMember, DropMember};
ghost use Rattle.table_schema.specs.Steps.{Plays, Reads, Serves};
ghost use Rattle.table_forms.specs.Numbers.{number_row};
ghost use Rattle.table_sets.specs.Members.{member_row, HasUtf8, AreMemberRows};

use base_faults::StoreFault;
use bug_record::{Member, Members, Sequence};
use sqlite::{Alter, Row, Transaction, params};
use std::alloc::Global;
use table_schema::{is_number_at, is_text_at, number_at, number_in, text_at, told, written};

/// A bug comes into the set of the key.
pub fn add_bug<S: Alter>(
    tx: &mut Transaction<'_, S>,
    key: u32,
    number: u32,
    title: &str,
    submitter: &str,
) -> Result<(), StoreFault>
    ensures same_reference { tx.new.conn.ghost_name ≡ tx.old.conn.ghost_name }
    ensures plays { Plays (PutMember key (record { number = number; title = title.now; submitter = submitter.now }))
        (state S.Store tx.old.conn.now) (state S.Store tx.new.conn.now) result }
    ensures serves { Serves (state S.Store tx.old.conn.now) (state S.Store tx.new.conn.now) result }
{
    written(tx.execute(
        "INSERT INTO bugs VALUES (?1, ?2, ?3, ?4)",
        params![number, key, title, submitter],
    ))
}

/// The bug of the number is in no set any more.
pub fn clear_bug<S: Alter>(tx: &mut Transaction<'_, S>, number: u32) -> Result<(), StoreFault>
    ensures same_reference { tx.new.conn.ghost_name ≡ tx.old.conn.ghost_name }
    ensures plays { Plays (DropMember number) (state S.Store tx.old.conn.now) (state S.Store tx.new.conn.now) result }
    ensures serves { Serves (state S.Store tx.old.conn.now) (state S.Store tx.new.conn.now) result }
{
    written(tx.execute("DELETE FROM bugs WHERE number = ?1", params![number]))
}

// The row of a bug's key.
fn key_rows<S: Alter>(tx: &mut Transaction<'_, S>, number: u32) -> Result<Vec<Row>, StoreFault>
    ensures same_reference { tx.new.conn.ghost_name ≡ tx.old.conn.ghost_name }
    ensures reads { Reads (λ c rows. rows.items ≡ option_map_or (λ k. number_row k ∷ []) (c.key number) [])
        (state S.Store tx.old.conn.now) (state S.Store tx.new.conn.now) result }
    ensures serves { Serves (state S.Store tx.old.conn.now) (state S.Store tx.new.conn.now) result }
{
    told(tx.query_all(
        "SELECT set_key FROM bugs WHERE number = ?1",
        params![number],
    ))
}

/// The key of the set that the bug is in, if there is such a bug.
pub fn read_key<S: Alter>(
    tx: &mut Transaction<'_, S>,
    number: u32,
) -> Result<Option<u64>, StoreFault>
    ensures same_reference { tx.new.conn.ghost_name ≡ tx.old.conn.ghost_name }
    ensures reads { Reads (λ c key. key ≡ c.key number) (state S.Store tx.old.conn.now) (state S.Store tx.new.conn.now) result }
    ensures serves { Serves (state S.Store tx.old.conn.now) (state S.Store tx.new.conn.now) result }
{
    let rows = key_rows(tx, number)?;
    number_in(rows.as_slice())
}

// The rows of a set's bugs, by number.
fn member_rows<S: Alter>(tx: &mut Transaction<'_, S>, key: u32) -> Result<Vec<Row>, StoreFault>
    ensures same_reference { tx.new.conn.ghost_name ≡ tx.old.conn.ghost_name }
    ensures reads { Reads (λ c rows. AreMemberRows rows.items (c.members key)) (state S.Store tx.old.conn.now) (state S.Store tx.new.conn.now) result }
    ensures serves { Serves (state S.Store tx.old.conn.now) (state S.Store tx.new.conn.now) result }
{
    told(tx.query_all(
        "SELECT number, title, submitter FROM bugs WHERE set_key = ?1 ORDER BY number",
        params![key],
    ))
}

// The bug of a row.
fn member_in(alloc: Global, row: &Row) -> Result<Member, StoreFault>
    ensures value { (m : SeenMember) → row.now ≡ member_row m → IfOk result (λ member. member ≡ m) }
    ensures memory { (m : SeenMember) → row.now ≡ member_row m → HasUtf8 m → IfErr result (λ fault. fault ≡ Memory) }
{
    let number = number_at(row, 0)?;
    let title = text_at(alloc, row, 1)?;
    let submitter = text_at(alloc, row, 2)?;
    Ok(Member {
        number,
        title,
        submitter,
    })
}

// The bugs of rows, in their order.
fn members_of(alloc: Global, rows: &[Row]) -> Result<Sequence<Member>, StoreFault>
    ensures value { (ms : List SeenMember) → AreMemberRows rows.now ms → IfOk result (λ members. members ≡ ms) }
    ensures memory { (ms : List SeenMember) → AreMemberRows rows.now ms → IfErr result (λ fault. fault ≡ Memory) }
{
    let mut members = Sequence::new(alloc);
    for row in rows {
        let member = member_in(alloc, row)?;
        match members.push(member) {
            Ok(()) => {}
            Err(_) => return Err(StoreFault::Memory),
        }
    }
    Ok(members)
}

// The bugs of rows, to be shared.
fn shared_members(alloc: Global, rows: &[Row]) -> Result<Members, StoreFault>
    ensures value { (ms : List SeenMember) → AreMemberRows rows.now ms → IfOk result (λ members. members ≡ ms) }
    ensures memory { (ms : List SeenMember) → AreMemberRows rows.now ms → IfErr result (λ fault. fault ≡ Memory) }
{
    match Members::of(members_of(alloc, rows)?) {
        Ok(members) => Ok(members),
        Err(_) => Err(StoreFault::Memory),
    }
}

/// The bugs of the set of the key, by number.
pub fn read_members<S: Alter>(
    alloc: Global,
    tx: &mut Transaction<'_, S>,
    key: u32,
) -> Result<Members, StoreFault>
    ensures same_reference { tx.new.conn.ghost_name ≡ tx.old.conn.ghost_name }
    ensures reads { Reads (λ c members. members ≡ c.members key) (state S.Store tx.old.conn.now) (state S.Store tx.new.conn.now) result }
    ensures serves { Serves (state S.Store tx.old.conn.now) (state S.Store tx.new.conn.now) result }
{
    let rows = member_rows(tx, key)?;
    shared_members(alloc, rows.as_slice())
}

// Whether the row is that of the bug.
fn is_row_of(row: &Row, member: &Member) -> bool
    ensures { (m : SeenMember) → row.now ≡ member_row m → result ≡ true → m ≡ member.now }
{
    is_number_at(row, 0, member.number)
        && is_text_at(row, 1, member.title.as_str())
        && is_text_at(row, 2, member.submitter.as_str())
}

// Whether the rows are those of the bugs, in their order.
fn are_rows_of(rows: &[Row], members: &[Member]) -> bool
    ensures { (ms : List SeenMember) → AreMemberRows rows.now ms → result ≡ true →
        ms ≡ members.now }
{
    if rows.len() != members.len() {
        return false;
    }
    for i in 0..rows.len() {
        if !is_row_of(&rows[i], &members[i]) {
            return false;
        }
    }
    true
}

/// Whether the bugs of the set of the key, by number, are these, with their titles and submitters.
/// `false` also where a row can't be read.
pub fn has_members<S: Alter>(
    tx: &mut Transaction<'_, S>,
    key: u32,
    members: &[Member],
) -> Result<bool, StoreFault>
    ensures same_reference { tx.new.conn.ghost_name ≡ tx.old.conn.ghost_name }
    ensures reads { Reads (λ c same. same ≡ true → c.members key ≡ members.now)
        (state S.Store tx.old.conn.now) (state S.Store tx.new.conn.now) result }
    ensures serves { Serves (state S.Store tx.old.conn.now) (state S.Store tx.new.conn.now) result }
{
    let rows = member_rows(tx, key)?;
    Ok(are_rows_of(rows.as_slice(), members))
}
