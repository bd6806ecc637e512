//! A crash of a store, and what is opened over what it left.

ghost use Rattle.std.specs.Prelude.{IfSome};
ghost use Rattle.sqlite.specs.Held.{state};
ghost use Rattle.sqlite.specs.State.{HasCleanDisk};
ghost use Rattle.sqlite.specs.Steps.{IsFresh};
ghost use Rattle.sqlite_trees.specs.Tree.{Trees};
ghost use Rattle.sqlite_trees.specs.View.{IsClean};
ghost use Rattle.table_crashes.specs.Settled.{HasHonestDisk, IsOpenedOver};

use crate::opening::open_store;
use desk_tables::TableDesk;
use sqlite::{Alter, Connection};
use sqlite_trees::store::Reopen;
use std::alloc::Global;

// Crashes at this moment: the store with what is left, if it comes back.
pub(crate) fn crash<S: Alter + Reopen + Drop>(conn: Connection<S>) -> Option<S>
    ensures fresh { IfSome result (λ left. IsClean (S.Store.view left) → IsFresh (S.Store.view left)) }
    ensures left { IfSome result (λ left. IsClean (S.Store.view left) →
        HasCleanDisk (state S.Store conn) × (state S.Store conn).may_leave (S.Store.view left).trees) }
{
    let mut store = conn.into_store();
    match store.crash_and_reopen() {
        Ok(()) => Some(store),
        Err(_) => None,
    }
}

// Crashes at this moment, and opens what is left, if it is a desk.
pub(crate) fn crash_and_find<S: Alter + Reopen + Drop>(
    alloc: Global,
    conn: Connection<S>,
) -> Option<TableDesk<S>>
    ensures honest { IfSome result (λ again. HasHonestDisk S.Store again → HasCleanDisk (state S.Store conn)) }
    ensures left { IfSome result (λ again. HasHonestDisk S.Store again →
        (db : Trees) × (state S.Store conn).may_leave db × IsOpenedOver S.Store db again) }
{
    match crash(conn) {
        Some(store) => open_store(alloc, store),
        None => None,
    }
}
