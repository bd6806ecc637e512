//! Transactions over a connection that make, ask or carry over the tables of a desk, and the end of
//! each.

ghost use Rattle.std.specs.Prelude.{◌≡◌, false};
ghost use Rattle.sqlite.specs.Held.{state};
ghost use Rattle.sqlite.specs.State.{IsLive};
ghost use Rattle.table_history.specs.Names.{no_tables};
ghost use Rattle.table_opening.specs.Idle.{IsIdle};
ghost use Rattle.table_opening.specs.Transactions.{IsMade, IsCarried, AsksSchema, Ends};

use base_faults::StoreFault;
use sqlite::{Alter, Connection, Transaction};
use table_history::{SchemaRead, carry_over, make_tables, read_schema};
use table_schema::told;

/// Ends a transaction: with a commit where its steps were done, and else undone.
/// The error is that of the steps, the first, or what the commit failed for: memory, the disk or
/// its size.
/// After an error the tables are as they were before the transaction; in either case the connection
/// is outside one.
/// A crash at any moment of the call leaves what it would have left before, or what is committed.
pub fn finish<S: Alter>(
    tx: Transaction<'_, S>,
    done: Result<(), StoreFault>,
) -> Result<(), StoreFault>
    ensures ended { tx.exit.0.now.in_transaction ≡ false }
    ensures ends { Ends (state S.Store tx.entry.conn.now)
        (state S.Store tx.exit.0.now) done result }
{
    match done {
        Ok(()) => told(tx.commit()),
        Err(fault) => {
            tx.rollback();
            Err(fault)
        }
    }
}

// Makes the tables of a new desk, which gives `first` to its first bug, in a database with none.
pub(crate) fn make_desk<S: Alter>(conn: &mut Connection<S>, first: u32) -> Result<(), StoreFault>
    requires idle { IsIdle conn.old }
    requires blank { (state S.Store conn.old).now.schema ≡ no_tables }
    requires live { IsLive (state S.Store conn.old) }
    ensures idle { IsIdle conn.new }
    ensures made { IsMade first (state S.Store conn.old) (state S.Store conn.new) result }
{
    let mut tx = conn.transaction();
    let done = make_tables(&mut tx, first);
    finish(tx, done)
}

// What the database says of the number of its schema, whatever that schema is.
pub(crate) fn ask_schema<S: Alter>(conn: &mut Connection<S>) -> Result<SchemaRead, StoreFault>
    requires idle { IsIdle conn.old }
    ensures idle { IsIdle conn.new }
    ensures asked { AsksSchema (state S.Store conn.old) (state S.Store conn.new) result }
{
    let mut tx = conn.transaction();
    let answer = read_schema(&mut tx);
    tx.rollback();
    answer
}

// Carries the tables of a desk under this schema over to the newest.
pub(crate) fn carry_desk<S: Alter>(conn: &mut Connection<S>, from: u64) -> Result<(), StoreFault>
    requires idle { IsIdle conn.old }
    ensures idle { IsIdle conn.new }
    ensures carried { IsCarried from (state S.Store conn.old) (state S.Store conn.new) result }
{
    let mut tx = conn.transaction();
    let done = carry_over(&mut tx, from);
    finish(tx, done)
}
