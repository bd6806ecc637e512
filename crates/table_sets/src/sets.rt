//! The fields of sets, but for their marks, blockers and bugs.

ghost use Rattle.std.specs.Prelude.{◌≡◌, ◌<◌, ℕ, pos, Bool, length, Option, option_map, option_copied, IfOk, IfErr};
ghost use Rattle.std.specs.Str.{IsUtf8};
ghost use Rattle.sqlite.specs.Held.{state};
ghost use Rattle.sqlite.specs.Order.{column};
ghost use Rattle.sqlite.specs.declared.types.Value.TheVariants.{Int};
ghost use Rattle.bug_record.specs.Severities.{rank};
ghost use Rattle.base_words.specs.Texts.{IfGiven};
ghost use Rattle.bug_record.specs.declared.severity.Severity.{Severity as SeenSeverity};
ghost use Rattle.base_faults.specs.declared.store_fault.StoreFault.TheVariants.{Memory};
ghost use Rattle.table_encodings.specs.Encodings.{flag, tags_in};
ghost use Rattle.table_content.specs.declared.edit.Edit.TheVariants.{PutFields, DropFields};
ghost use Rattle.table_schema.specs.SetRows.{SetRow, IsSetRow, fields_of_row};
ghost use Rattle.table_schema.specs.Steps.{Plays, Reads, Serves};
ghost use Rattle.table_sets.specs.Fields.{field_row, field_rows, AreFieldsOf};

use base_faults::StoreFault;
use bug_record::{Severity, Tags};
use debver::Text;
use sqlite::{Alter, Row, Transaction, params};
use std::alloc::Global;
use table_content::SetFields;
use table_encodings::{
    flag_of_number, number_of_flag, number_of_tags, severity_of_number, tags_of_number,
};
use table_schema::{maybe_text_at, number_at, text_at, told, written};

// A text that may be missing, for a parameter.
fn str_of(text: &Option<Text>) -> Option<&str>
    ensures value { option_copied result ≡ text.now }
    ensures utf8 { IfGiven IsUtf8 text.now }
{
    match text {
        Some(text) => Some(text.as_str()),
        None => None,
    }
}

/// The set of the key gets these fields.
pub fn add_fields<S: Alter>(
    tx: &mut Transaction<'_, S>,
    key: u32,
    fields: &SetFields,
) -> Result<(), StoreFault>
    ensures same_reference { tx.new.conn.ghost_name ≡ tx.old.conn.ghost_name }
    ensures plays { Plays (PutFields key fields.now) (state S.Store tx.old.conn.now) (state S.Store tx.new.conn.now) result }
    ensures serves { Serves (state S.Store tx.old.conn.now) (state S.Store tx.new.conn.now) result }
{
    written(tx.execute(
        "INSERT INTO sets VALUES (?1, ?2, ?3, ?4, ?5, ?6, ?7, ?8)",
        params![
            key,
            fields.package.as_str(),
            u32::from(fields.severity.rank()),
            number_of_flag(fields.closed),
            str_of(&fields.forwarded),
            str_of(&fields.owner),
            number_of_tags(&fields.tags),
            number_of_flag(fields.archived),
        ],
    ))
}

/// The set of the key is no set any more.
pub fn clear_fields<S: Alter>(tx: &mut Transaction<'_, S>, key: u32) -> Result<(), StoreFault>
    ensures same_reference { tx.new.conn.ghost_name ≡ tx.old.conn.ghost_name }
    ensures plays { Plays (DropFields key) (state S.Store tx.old.conn.now) (state S.Store tx.new.conn.now) result }
    ensures serves { Serves (state S.Store tx.old.conn.now) (state S.Store tx.new.conn.now) result }
{
    written(tx.execute("DELETE FROM sets WHERE set_key = ?1", params![key]))
}

// The row of a set's fields, if there is one.
fn field_rows<S: Alter>(tx: &mut Transaction<'_, S>, key: u32) -> Result<Vec<Row>, StoreFault>
    ensures same_reference { tx.new.conn.ghost_name ≡ tx.old.conn.ghost_name }
    ensures reads { Reads (λ c rows. AreFieldsOf key c rows.items) (state S.Store tx.old.conn.now) (state S.Store tx.new.conn.now) result }
    ensures serves { Serves (state S.Store tx.old.conn.now) (state S.Store tx.new.conn.now) result }
{
    told(tx.query_all(
        "SELECT package, severity, closed, forwarded, owner, tags, archived \
         FROM sets WHERE set_key = ?1",
        params![key],
    ))
}

// The severity in a cell; a number of none can't be read.
pub(crate) fn severity_at(row: &Row, at: usize) -> Result<Severity, StoreFault>
    ensures value { (s : SeenSeverity) → column row.now at ≡ Int (pos (rank s)) → IfOk result (λ v. v ≡ s) }
    ensures memory { (s : SeenSeverity) → at < length row.now → column row.now at ≡ Int (pos (rank s)) →
        IfErr result (λ fault. fault ≡ Memory) }
{
    match severity_of_number(number_at(row, at)?) {
        Some(severity) => Ok(severity),
        None => Err(StoreFault::Foreign),
    }
}

// The flag in a cell; a number above 1 can't be read.
pub(crate) fn flag_at(row: &Row, at: usize) -> Result<bool, StoreFault>
    ensures value { (b : Bool) → column row.now at ≡ Int (pos (flag b)) → IfOk result (λ v. v ≡ b) }
    ensures memory { (b : Bool) → at < length row.now → column row.now at ≡ Int (pos (flag b)) → IfErr result (λ fault. fault ≡ Memory) }
{
    match flag_of_number(number_at(row, at)?) {
        Some(flag) => Ok(flag),
        None => Err(StoreFault::Foreign),
    }
}

// The tags whose number is in a cell.
fn tags_at(alloc: Global, row: &Row, at: usize) -> Result<Tags, StoreFault>
    ensures value { (n : ℕ) → column row.now at ≡ Int (pos n) → IfOk result (λ tags. tags ≡ tags_in n) }
    ensures memory { (n : ℕ) → at < length row.now → column row.now at ≡ Int (pos n) → IfErr result (λ fault. fault ≡ Memory) }
{
    Ok(tags_of_number(alloc, number_at(row, at)?)?)
}

// The fields in a row.
fn fields_of(alloc: Global, row: &Row) -> Result<SetFields, StoreFault>
    ensures value { (x : SetRow) → row.now ≡ field_row x → IfOk result (λ fields. fields ≡ fields_of_row x) }
    ensures memory { (x : SetRow) → row.now ≡ field_row x → IsSetRow x → IfErr result (λ fault. fault ≡ Memory) }
{
    let package = text_at(alloc, row, 0)?;
    let severity = severity_at(row, 1)?;
    let closed = flag_at(row, 2)?;
    let forwarded = maybe_text_at(alloc, row, 3)?;
    let owner = maybe_text_at(alloc, row, 4)?;
    let tags = tags_at(alloc, row, 5)?;
    let archived = flag_at(row, 6)?;
    Ok(SetFields {
        package,
        severity,
        closed,
        forwarded,
        owner,
        tags,
        archived,
    })
}

// The fields in the only row, if there is one.
fn fields_in(alloc: Global, rows: &[Row]) -> Result<Option<SetFields>, StoreFault>
    ensures value { (o : Option SetRow) → rows.now ≡ field_rows o → IfOk result (λ fields. fields ≡ option_map fields_of_row o) }
    ensures memory { (o : Option SetRow) → rows.now ≡ field_rows o → IfGiven IsSetRow o → IfErr result (λ fault. fault ≡ Memory) }
{
    match rows {
        [] => Ok(None),
        [row, ..] => Ok(Some(fields_of(alloc, row)?)),
    }
}

/// The fields of the set of the key, if there is such a set.
/// `Memory` where there is none for them.
pub fn read_fields<S: Alter>(
    alloc: Global,
    tx: &mut Transaction<'_, S>,
    key: u32,
) -> Result<Option<SetFields>, StoreFault>
    ensures same_reference { tx.new.conn.ghost_name ≡ tx.old.conn.ghost_name }
    ensures reads { Reads (λ c fields. fields ≡ c.fields key) (state S.Store tx.old.conn.now) (state S.Store tx.new.conn.now) result }
    ensures serves { Serves (state S.Store tx.old.conn.now) (state S.Store tx.new.conn.now) result }
{
    let rows = field_rows(tx, key)?;
    fields_in(alloc, rows.as_slice())
}
