//! How a database is made that of a desk, or recognised as one.

ghost use Rattle.sqlite.specs.Held.{state};
ghost use Rattle.table_opening.specs.Idle.{IsIdle};
ghost use Rattle.table_opening.specs.Transactions.{IsCreated, IsRecognised, IsFound};

use crate::calls::{ask_schema, carry_desk, make_desk};
use crate::open_fault::OpenFault;
use base_faults::StoreFault;
use sqlite::{Alter, Connection};
use std::snapshot::Snapshot;
use table_history::{NEWEST, SchemaRead, is_blank, names_a_desk_table};

/// Makes the tables of a new desk in a database with none, in one transaction; its first bug gets
/// this number.
/// A refusal leaves the tables as they were: `NotEmpty` exactly where a table has the name of one
/// of a desk's, `Store(Foreign)` where there are other tables, indexes or views, and else what the
/// store failed for.
/// In either case the connection is left outside a transaction, and with no limit of steps.
/// A crash at any moment of the call leaves what it would have left before, or the new desk; where
/// there are tables it leaves what it would have left before.
pub fn create_tables<S: Alter>(conn: &mut Connection<S>, first: u32) -> Result<(), OpenFault>
    requires idle { IsIdle conn.old }
    ensures idle { IsIdle conn.new }
    ensures created { IsCreated first (state S.Store conn.old) (state S.Store conn.new) result }
{
    let schema = conn.schema();
    if names_a_desk_table(schema) {
        return Err(OpenFault::NotEmpty);
    }
    if !is_blank(schema) {
        return Err(OpenFault::Store(StoreFault::Foreign));
    }
    make_desk(conn, first)?;
    Ok(())
}

// Asks the database whether it is a desk's, and under which schema.
fn recognise<S: Alter>(conn: &mut Connection<S>) -> Result<u64, OpenFault>
    requires idle { IsIdle conn.old }
    ensures idle { IsIdle conn.new }
    ensures recognised { IsRecognised (state S.Store conn.old) (state S.Store conn.new) result }
{
    match ask_schema(conn)? {
        SchemaRead::Number(number) if number <= NEWEST => Ok(number),
        SchemaRead::Number(number) => Err(OpenFault::NewerSchema(number)),
        SchemaRead::NoNumber => Err(OpenFault::NotADesk),
    }
}

/// Recognises a desk, and carries it over, in one transaction, where it is kept under an earlier
/// schema.
/// The answer remembers the connection that showed its content under the newest.
/// A refusal leaves the tables as they were: `NotADesk` where the database says no number of a
/// desk's schema, `NewerSchema` where it says one above the newest, and else what the store failed
/// for, which may be `Foreign` where the tables say an earlier number and are no desk's.
/// In either case the connection is left outside a transaction, and with no limit of steps.
/// A crash at any moment of the call leaves what it would have left before, or, of a desk under an
/// earlier schema, the same desk under the newest.
pub fn find_desk<S: Alter>(conn: &mut Connection<S>) -> Result<Snapshot<Connection<S>>, OpenFault>
    requires idle { IsIdle conn.old }
    ensures idle { IsIdle conn.new }
    ensures found { IsFound (λ last. state S.Store last.value) (state S.Store conn.old)
        (state S.Store conn.new) result }
{
    let last = Snapshot::of(conn);
    let from = recognise(conn)?;
    if from == NEWEST {
        return Ok(last);
    }
    carry_desk(conn, from)?;
    Ok(Snapshot::of(conn))
}
