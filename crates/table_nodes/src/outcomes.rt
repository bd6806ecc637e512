//! The outcomes of messages that have an id, without the numbers of accepted lines.

ghost use Rattle.std.specs.Prelude.{◌≡◌, ◌≢◌, ◌+◌, ◌<◌, ℕ, true, false, List, Option, option_map, option_copied, length, IfOk, IfErr};
ghost use Rattle.sqlite.specs.Held.{state};
ghost use Rattle.sqlite.specs.Order.{column};
ghost use Rattle.sqlite.specs.Values.{or_null};
ghost use Rattle.sqlite.specs.declared.types.Value.TheVariants.{Null, Text as TextCell};
ghost use Rattle.version_nodes.specs.Nodes.{Node as SeenNode, IsNode};
ghost use Rattle.base_words.specs.Texts.{IfGiven};
ghost use Rattle.base_faults.specs.declared.store_fault.StoreFault.TheVariants.{Memory};
ghost use Rattle.table_content.specs.declared.edit.Edit.TheVariants.{PutOutcome};
ghost use Rattle.table_content.specs.declared.edit.ToldOutcome.{ToldOutcome as SeenOutcome};
ghost use Rattle.table_schema.specs.Steps.{Plays, Reads, Serves};
ghost use Rattle.table_nodes.specs.Rows.{outcome_row, IsToldOutcome, AreOutcomeRows};

use base_faults::StoreFault;
use bug_record::{Outcome, Sequence};
use sqlite::types::ValueRef;
use sqlite::{Alter, Row, Transaction, params};
use std::alloc::Global;
use table_content::ToldOutcome;
use table_encodings::{
    field_of_outcome, kind_of_outcome, node_of_outcome, number_of_outcome, outcome_of_numbers,
};
use table_schema::{fault_of, maybe_number_at, maybe_parameter, node_at, number_at, told, written};
use version_nodes::Node;

// The source of a node that may be missing, for a parameter.
fn source_of(node: Option<&Node>) -> Option<&str>
    ensures value { option_copied result ≡ option_map (λ v. v.source) (option_copied node.entry) }
    ensures valid { IfGiven IsNode (option_copied node.entry) }
{
    match node {
        Some(node) => Some(node.source()),
        None => None,
    }
}

// The version of a node that may be missing, for a parameter.
fn version_of(node: Option<&Node>) -> Option<&str>
    ensures value { option_copied result ≡ option_map (λ v. v.version) (option_copied node.entry) }
{
    match node {
        Some(node) => Some(node.version()),
        None => None,
    }
}

/// An outcome is kept of the message of the id, at the place, without the numbers of an accepted
/// line.
/// `Full` where its own number is above `u32::MAX`, as no bug's is.
pub fn add_outcome<S: Alter>(
    tx: &mut Transaction<'_, S>,
    id: &str,
    place: u32,
    outcome: &Outcome,
) -> Result<(), StoreFault>
    ensures same_reference { tx.new.conn.ghost_name ≡ tx.old.conn.ghost_name }
    ensures plays { Plays (PutOutcome id.now place outcome.now) (state S.Store tx.old.conn.now) (state S.Store tx.new.conn.now) result }
    ensures serves { Serves (state S.Store tx.old.conn.now) (state S.Store tx.new.conn.now) result }
{
    let number = maybe_parameter(number_of_outcome(outcome))?;
    let node = node_of_outcome(outcome);
    written(tx.execute(
        "INSERT INTO outcomes VALUES (?1, ?2, ?3, ?4, ?5, ?6, ?7)",
        params![
            id,
            place,
            kind_of_outcome(outcome),
            number,
            field_of_outcome(outcome),
            source_of(node),
            version_of(node)
        ],
    ))
}

// The rows of a message's outcomes, by place.
fn outcome_rows<S: Alter>(tx: &mut Transaction<'_, S>, id: &str) -> Result<Vec<Row>, StoreFault>
    ensures same_reference { tx.new.conn.ghost_name ≡ tx.old.conn.ghost_name }
    ensures reads { Reads (λ c rows. AreOutcomeRows rows.items (c.outcomes id.now))
        (state S.Store tx.old.conn.now) (state S.Store tx.new.conn.now) result }
    ensures serves { Serves (state S.Store tx.old.conn.now) (state S.Store tx.new.conn.now) result }
{
    told(tx.query_all(
        "SELECT place, kind, number, field, source, version FROM outcomes \
         WHERE id = ?1 ORDER BY place",
        params![id],
    ))
}

// Whether a cell, counted from 0, has no value.
fn is_null_at(row: &Row, at: usize) -> Result<bool, StoreFault>
    ensures null { IfOk result (λ null. null ≡ true → column row.now at ≡ Null) }
    ensures other { IfOk result (λ null. null ≡ false → column row.now at ≢ Null) }
    ensures memory { at < length row.now → IfErr result (λ fault. fault ≡ Memory) }
{
    match row.get_ref(at) {
        Ok(ValueRef::Null) => Ok(true),
        Ok(_) => Ok(false),
        Err(error) => Err(fault_of(&error)),
    }
}

// The node whose source stands in a cell, counted from 0, and its version in the next one, if there
// is one.
pub(crate) fn maybe_node_at(alloc: Global, row: &Row, at: usize) -> Result<Option<Node>, StoreFault>
    requires { at < 100 }
    ensures value { (v : Option SeenNode) → IfGiven IsNode v → column row.now at ≡ or_null (λ n. TextCell n.source) v →
        column row.now (at + 1) ≡ or_null (λ n. TextCell n.version) v → IfOk result (λ node. node ≡ v) }
    ensures memory { (v : Option SeenNode) → at + 1 < length row.now → IfGiven IsNode v → column row.now at ≡ or_null (λ n. TextCell n.source) v →
        column row.now (at + 1) ≡ or_null (λ n. TextCell n.version) v → IfErr result (λ fault. fault ≡ Memory) }
{
    let is_null = is_null_at(row, at)?;
    if is_null {
        return Ok(None);
    }
    match node_at(alloc, row, at) {
        Ok(node) => Ok(Some(node)),
        Err(fault) => Err(fault),
    }
}

// The outcome of a row.
fn outcome_at(alloc: Global, row: &Row) -> Result<Outcome, StoreFault>
    ensures value { (t : SeenOutcome) → IsToldOutcome t → row.now ≡ outcome_row t → IfOk result (λ outcome. outcome ≡ t.outcome) }
    ensures memory { (t : SeenOutcome) → IsToldOutcome t → row.now ≡ outcome_row t → IfErr result (λ fault. fault ≡ Memory) }
{
    let kind = number_at(row, 1)?;
    let number = maybe_number_at(row, 2)?;
    let field = maybe_number_at(row, 3)?;
    let node = maybe_node_at(alloc, row, 4)?;
    match outcome_of_numbers(alloc, kind, number, field, node) {
        Some(outcome) => Ok(outcome),
        None => Err(StoreFault::Foreign),
    }
}

// The outcome of a row, with its place.
fn outcome_in(alloc: Global, row: &Row) -> Result<ToldOutcome, StoreFault>
    ensures value { (t : SeenOutcome) → IsToldOutcome t → row.now ≡ outcome_row t → IfOk result (λ told. told ≡ t) }
    ensures memory { (t : SeenOutcome) → IsToldOutcome t → row.now ≡ outcome_row t → IfErr result (λ fault. fault ≡ Memory) }
{
    let place = number_at(row, 0)?;
    let outcome = outcome_at(alloc, row)?;
    Ok(ToldOutcome { place, outcome })
}

// The outcomes of rows, in their order.
fn outcomes_of(alloc: Global, rows: &[Row]) -> Result<Sequence<ToldOutcome>, StoreFault>
    ensures value { (ts : List SeenOutcome) → AreOutcomeRows rows.now ts → IfOk result (λ outcomes. outcomes ≡ ts) }
    ensures memory { (ts : List SeenOutcome) → AreOutcomeRows rows.now ts → IfErr result (λ fault. fault ≡ Memory) }
{
    let mut outcomes = Sequence::new(alloc);
    for row in rows {
        let outcome = outcome_in(alloc, row)?;
        match outcomes.push(outcome) {
            Ok(()) => {}
            Err(_) => return Err(StoreFault::Memory),
        }
    }
    Ok(outcomes)
}

/// The outcomes that are kept of the message of the id, by place; the numbers of accepted lines are
/// not read with them.
/// `Memory` where there is none for them.
pub fn read_outcomes<S: Alter>(
    alloc: Global,
    tx: &mut Transaction<'_, S>,
    id: &str,
) -> Result<Sequence<ToldOutcome>, StoreFault>
    ensures same_reference { tx.new.conn.ghost_name ≡ tx.old.conn.ghost_name }
    ensures reads { Reads (λ c outcomes. outcomes ≡ c.outcomes id.now) (state S.Store tx.old.conn.now) (state S.Store tx.new.conn.now) result }
    ensures serves { Serves (state S.Store tx.old.conn.now) (state S.Store tx.new.conn.now) result }
{
    let rows = outcome_rows(tx, id)?;
    outcomes_of(alloc, rows.as_slice())
}
