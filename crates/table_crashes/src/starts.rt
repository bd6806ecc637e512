//! A crash right after a desk is created, or opened.

ghost use Rattle.std.specs.Prelude.{◌≡◌, ◌⊎◌, ◌≤◌, ℕ, false, IfSome, IsOk};
ghost use Rattle.sqlite.specs.Held.{IsNew, state};
ghost use Rattle.sqlite.specs.State.{HasCleanDisk, Opens, IsLive};
ghost use Rattle.sqlite.specs.Steps.{IsFresh};
ghost use Rattle.sqlite_trees.specs.Tree.{Trees};
ghost use Rattle.sqlite_trees.specs.View.{IsClean};
ghost use Rattle.base_words.specs.declared.named.TheConstants.{LARGEST_NUMBER};
ghost use Rattle.store_keys.specs.Keys.{empty_desk};
ghost use Rattle.store_contract.specs.Kept.{none_kept};
ghost use Rattle.table_content.specs.Content.{Content};
ghost use Rattle.table_content.specs.Kept.{IsKeptContent};
ghost use Rattle.table_opening.specs.Shown.{AreTablesOf, AreTablesUnder, HoldTables};
ghost use Rattle.table_crashes.specs.Settled.{HasHonestDisk, HoldTablesFrom, IsSettled, IsOpenedOver};

use crate::calls::crash_and_open;
use crate::left::{crash, crash_and_find};
use crate::opening::open_store;
use desk_tables::{OpenFault, TableDesk};
use sqlite::{Alter, Connection};
use sqlite_trees::store::Reopen;
use std::alloc::Global;

/// Creates a desk, and crashes right after the call, whatever it answered; then it opens what is
/// left.
/// What is opened is what could have been left before the call, or the new empty desk, settled;
/// where the desk was answered as created, it is that one, and its first bug gets this number.
/// It asks what `TableDesk::create` asks.
/// The second answer is `None` where nothing is opened: there is no desk, out of memory, or by a
/// fault of the store.
pub fn create_and_crash<S: Alter + Reopen + Drop>(
    alloc: Global,
    conn: Connection<S>,
    first: u64,
) -> (Result<(), OpenFault>, Option<TableDesk<S>>)
    requires autocommit { conn.in_transaction ≡ false }
    requires some { 1 ≤ first }
    requires few { first ≤ LARGEST_NUMBER }
    ensures either { IfSome result.1 (λ again. HasHonestDisk S.Store again →
        ((db : Trees) × (state S.Store conn).may_leave db × IsOpenedOver S.Store db again) ⊎ IsSettled S.Store (empty_desk first) none_kept again) }
    ensures done { IfSome result.1 (λ again. HasHonestDisk S.Store again → IsOk result.0 → IsSettled S.Store (empty_desk first) none_kept again) }
{
    match TableDesk::create(alloc, conn, first) {
        Ok(desk) => (Ok(()), crash_and_open(alloc, desk)),
        Err((fault, conn)) => (Err(fault), crash_and_find(alloc, conn)),
    }
}

/// Opens the desk that a new connection holds, and crashes right after the call, whatever it
/// answered: what is left.
/// A desk stays the same desk, under its schema or a later one; where it was answered as opened,
/// it is under the newest.
/// The second answer is `None` where the store does not come back: out of memory, or by a fault.
pub fn crash_in_open<S: Alter + Reopen + Drop>(
    alloc: Global,
    conn: Connection<S>,
) -> (Result<(), OpenFault>, Option<S>)
    requires fresh { IsNew conn }
    requires opened { HasCleanDisk (state S.Store conn) → Opens (state S.Store conn) × IsLive (state S.Store conn) }
    ensures fresh { IfSome result.1 (λ left. IsClean (S.Store.view left) → IsFresh (S.Store.view left)) }
    ensures honest { IfSome result.1 (λ left. IsClean (S.Store.view left) → HasCleanDisk (state S.Store conn)) }
    ensures held { IfSome result.1 (λ left. IsClean (S.Store.view left) → (k : ℕ) (c : Content) →
        AreTablesUnder k c (state S.Store conn).committed.trees → HoldTablesFrom k c (S.Store.view left).trees) }
    ensures done { IfSome result.1 (λ left. IsClean (S.Store.view left) → IsOk result.0 → (c : Content) →
        HoldTables c (state S.Store conn).committed.trees → IsKeptContent c → AreTablesOf c (S.Store.view left).trees) }
{
    match TableDesk::open(alloc, conn) {
        Ok(desk) => (Ok(()), crash(desk.close())),
        Err((fault, conn)) => (Err(fault), crash(conn)),
    }
}

/// Opens the desk that a new connection holds, and crashes right after the call, whatever it
/// answered; then it opens what is left.
/// Where the tables were a desk's, under schema 1, 2 or 3, what is opened is the same desk, with
/// what is kept of messages, and settled.
/// The second answer is `None` where nothing is opened: there is no desk, out of memory, or by a
/// fault of the store.
pub fn open_and_crash<S: Alter + Reopen + Drop>(
    alloc: Global,
    conn: Connection<S>,
) -> (Result<(), OpenFault>, Option<TableDesk<S>>)
    requires fresh { IsNew conn }
    requires opened { HasCleanDisk (state S.Store conn) → Opens (state S.Store conn) × IsLive (state S.Store conn) }
    ensures honest { IfSome result.1 (λ again. HasHonestDisk S.Store again → HasCleanDisk (state S.Store conn)) }
    ensures found { IfSome result.1 (λ again. HasHonestDisk S.Store again → IsOpenedOver S.Store (state S.Store conn).committed.trees again) }
{
    let (answered, left) = crash_in_open(alloc, conn);
    match left {
        Some(store) => (answered, open_store(alloc, store)),
        None => (answered, None),
    }
}
