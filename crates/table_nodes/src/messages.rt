//! The messages that have an id.

ghost use Rattle.std.specs.Prelude.{◌≡◌, Option, IfOk, IfErr};
ghost use Rattle.sqlite.specs.Held.{state};
ghost use Rattle.base_faults.specs.declared.store_fault.StoreFault.TheVariants.{Memory};
ghost use Rattle.table_content.specs.declared.edit.Edit.TheVariants.{PutMessage};
ghost use Rattle.table_content.specs.declared.edit.SentMessage.{SentMessage as SeenMessage};
ghost use Rattle.table_schema.specs.Steps.{Plays, Reads, Serves};
ghost use Rattle.table_nodes.specs.Rows.{message_row, HasUtf8, AreMessageRows};

use base_faults::StoreFault;
use sqlite::{Alter, Row, Transaction, params};
use std::alloc::Global;
use table_content::SentMessage;
use table_schema::{bytes_text_at, text_at, told, written};

/// The message of the id becomes known, with its sender and its text.
pub fn add_message<S: Alter>(
    tx: &mut Transaction<'_, S>,
    id: &str,
    from: &str,
    message: &str,
) -> Result<(), StoreFault>
    ensures same_reference { tx.new.conn.ghost_name ≡ tx.old.conn.ghost_name }
    ensures plays { Plays (PutMessage id.now from.now message.now) (state S.Store tx.old.conn.now) (state S.Store tx.new.conn.now) result }
    ensures serves { Serves (state S.Store tx.old.conn.now) (state S.Store tx.new.conn.now) result }
{
    written(tx.execute(
        "INSERT INTO messages VALUES (?1, ?2, ?3)",
        params![id, from, message.as_bytes()],
    ))
}

// The row of a message, if there is one.
fn message_rows<S: Alter>(tx: &mut Transaction<'_, S>, id: &str) -> Result<Vec<Row>, StoreFault>
    ensures same_reference { tx.new.conn.ghost_name ≡ tx.old.conn.ghost_name }
    ensures reads { Reads (λ c rows. AreMessageRows rows.items (c.messages id.now))
        (state S.Store tx.old.conn.now) (state S.Store tx.new.conn.now) result }
    ensures serves { Serves (state S.Store tx.old.conn.now) (state S.Store tx.new.conn.now) result }
{
    told(tx.query_all(
        "SELECT sender, message FROM messages WHERE id = ?1",
        params![id],
    ))
}

// The message of a row.
fn message_in(alloc: Global, row: &Row) -> Result<SentMessage, StoreFault>
    ensures value { (m : SeenMessage) → row.now ≡ message_row m → IfOk result (λ message. message ≡ m) }
    ensures memory { (m : SeenMessage) → row.now ≡ message_row m → HasUtf8 m → IfErr result (λ fault. fault ≡ Memory) }
{
    let from = text_at(alloc, row, 0)?;
    let message = bytes_text_at(alloc, row, 1)?;
    Ok(SentMessage { from, message })
}

// The message of the only row, if there is one.
fn message_of(alloc: Global, rows: &[Row]) -> Result<Option<SentMessage>, StoreFault>
    ensures value { (o : Option SeenMessage) → AreMessageRows rows.now o → IfOk result (λ message. message ≡ o) }
    ensures memory { (o : Option SeenMessage) → AreMessageRows rows.now o → IfErr result (λ fault. fault ≡ Memory) }
{
    match rows {
        [] => Ok(None),
        [row, ..] => Ok(Some(message_in(alloc, row)?)),
    }
}

/// The sender and the text of the message of the id, if it is known.
/// `Memory` where there is none for them.
pub fn read_message<S: Alter>(
    alloc: Global,
    tx: &mut Transaction<'_, S>,
    id: &str,
) -> Result<Option<SentMessage>, StoreFault>
    ensures same_reference { tx.new.conn.ghost_name ≡ tx.old.conn.ghost_name }
    ensures reads { Reads (λ c message. message ≡ c.messages id.now) (state S.Store tx.old.conn.now) (state S.Store tx.new.conn.now) result }
    ensures serves { Serves (state S.Store tx.old.conn.now) (state S.Store tx.new.conn.now) result }
{
    let rows = message_rows(tx, id)?;
    message_of(alloc, rows.as_slice())
}
