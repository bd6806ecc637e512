//! Desks that are opened over what a store holds.

ghost use Rattle.std.specs.Prelude.{IfSome};
ghost use Rattle.sqlite.specs.Held.{IsNew, state};
ghost use Rattle.sqlite.specs.State.{HasCleanDisk, Opens, IsLive};
ghost use Rattle.sqlite.specs.Steps.{IsFresh};
ghost use Rattle.sqlite_trees.specs.View.{IsClean};
ghost use Rattle.table_crashes.specs.Settled.{HasHonestDisk, IsOpenedOver};

use desk_tables::TableDesk;
use sqlite::{Alter, Connection};
use std::alloc::Global;

// The desk that a database holds, if it is opened.
pub(crate) fn open_connection<S: Alter + Drop>(
    alloc: Global,
    conn: Connection<S>,
) -> Option<TableDesk<S>>
    requires fresh { IsNew conn }
    requires opened { HasCleanDisk (state S.Store conn) → Opens (state S.Store conn) × IsLive (state S.Store conn) }
    ensures honest { IfSome result (λ again. HasHonestDisk S.Store again → HasCleanDisk (state S.Store conn)) }
    ensures opened { IfSome result (λ again. HasHonestDisk S.Store again → IsOpenedOver S.Store (state S.Store conn).committed.trees again) }
{
    match TableDesk::open(alloc, conn) {
        Ok(desk) => Some(desk),
        Err(_) => None,
    }
}

// The desk that the trees of a store hold, if it is opened.
pub(crate) fn open_store<S: Alter + Drop>(alloc: Global, store: S) -> Option<TableDesk<S>>
    requires fresh { IsClean (S.Store.view store) → IsFresh (S.Store.view store) }
    ensures honest { IfSome result (λ again. HasHonestDisk S.Store again → IsClean (S.Store.view store)) }
    ensures opened { IfSome result (λ again. HasHonestDisk S.Store again → IsOpenedOver S.Store (S.Store.view store).trees again) }
{
    match Connection::over(alloc, store) {
        Ok(conn) => open_connection(alloc, conn),
        Err(_) => None,
    }
}
