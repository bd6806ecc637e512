//! The desk over a connection.

ghost use Rattle.std.specs.Prelude.{◌≡◌, ℕ, None};
ghost use Rattle.sqlite.specs.Held.{state};
ghost use Rattle.store_contract.specs.Store.{no_faults};
ghost use Rattle.table_reads.specs.Known.{known_set};
ghost use Rattle.table_opening.specs.Idle.{IsIdle};
ghost use Rattle.table_opening.specs.Still.{StillShows, StillShows-prop};

use crate::counts::Counts;
use sqlite::{Alter, Connection};
use std::alloc::Global;
use std::snapshot::Snapshot;
use table_reads::KnownSets;
use table_writes::KnownPlace;
use version_marks::Family;

/// A desk in the tables of a connection.
///
/// Its content is what the connection showed as it was last made or found.
/// It is remembered also once a fault has shut the connection, by a value that contracts alone can
/// see.
pub struct TableDesk<S: Alter> {
    pub(crate) conn: Connection<S>,
    pub(crate) alloc: Global,
    // The tree, once a call has read it.
    pub(crate) family: Option<Family>,
    // The sets that calls have read or changed, as they are now.
    pub(crate) known: KnownSets,
    // The place that comes next of the message that was kept last.
    pub(crate) place: KnownPlace,
    // The next number, once a call has read it.
    pub(crate) next: Option<u64>,
    pub(crate) counts: Counts,
    // The connection as the content was last made or found.
    pub(crate) last: Snapshot<Connection<S>>,
    ghost idle: { IsIdle conn },
    // The desk that it showed then, it shows now.
    ghost stays: { StillShows (state S.Store last.value) (state S.Store conn) } by { StillShows-prop
        (state S.Store last.value) (state S.Store conn) },
}

// It is written out, so that a caller does not prove again how each part is dropped.
impl<S: Alter + Drop> Drop for TableDesk<S> {
    fn drop(self) {
        let TableDesk {
            conn: _,
            alloc: _,
            family: _,
            known: _,
            place: _,
            next: _,
            counts: _,
            last: _,
        } = self;
    }
}

impl<S: Alter> TableDesk<S> {
    // The desk over a connection, with the content that was last seen.
    pub(crate) fn found(
        alloc: Global,
        conn: Connection<S>,
        last: Snapshot<Connection<S>>,
    ) -> TableDesk<S>
        requires idle { IsIdle conn }
        requires stays { StillShows (state S.Store last.value) (state S.Store conn) }
        ensures conn { result.conn ≡ conn }
        ensures last { result.last.value ≡ last.value }
        ensures family { result.family ≡ None }
        ensures known { (k : ℕ) → known_set result.known k ≡ None }
        ensures place { result.place ≡ None }
        ensures next { result.next ≡ None }
        ensures counts { result.counts ≡ no_faults }
    {
        TableDesk {
            conn,
            alloc,
            family: None,
            known: KnownSets::new(alloc),
            place: KnownPlace::new(),
            next: None,
            counts: Counts::new(),
            last,
        }
    }

    // Hands the connection back.
    pub(crate) fn into_connection(self) -> Connection<S>
        ensures conn { result ≡ self.conn }
        ensures idle { IsIdle result }
    {
        let TableDesk {
            conn,
            alloc: _,
            family: _,
            known: _,
            place: _,
            next: _,
            counts: _,
            last: _,
        } = self;
        conn
    }
}
