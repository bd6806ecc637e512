//! How the tables of a desk are made, and carried over from an earlier schema.

ghost use Rattle.std.specs.Prelude.{◌≡◌, drop, map, ⊤};
ghost use Rattle.sqlite.specs.Held.{state};
ghost use Rattle.sqlite.specs.Tree.{Trees};
ghost use Rattle.table_content.specs.Content.{Content, no_content};
ghost use Rattle.table_schema.specs.Tables.{desk_schema};
ghost use Rattle.table_history.specs.Making.{no_rows, IsBlank, IsDeskOf, IsUnder, Builds};
ghost use Rattle.table_history.specs.Stages.{HasRun, RunsStep, RunsSteps, IsBuilt, AreNumbered};

use crate::history::STEPS;
use base_faults::StoreFault;
use sqlite::{Alter, Transaction, params};
use table_schema::written;

// Makes what the text says.
fn make<S: Alter>(tx: &mut Transaction<'_, S>, sql: &str) -> Result<(), StoreFault>
    ensures same_reference { tx.new.conn.ghost_name ≡ tx.old.conn.ghost_name }
    ensures runs { HasRun sql.now (state S.Store tx.old.conn.now) (state S.Store tx.new.conn.now) result }
{
    written(tx.execute(sql, &[]))
}

// Makes what the texts of a step say.
fn make_step<S: Alter>(tx: &mut Transaction<'_, S>, step: &[&str]) -> Result<(), StoreFault>
    ensures same_reference { tx.new.conn.ghost_name ≡ tx.old.conn.ghost_name }
    ensures runs { RunsStep S.Store (map (λ sql. sql.now) step.now) tx.old.conn.now tx.new.conn.now result }
{
    for sql in step {
        make(tx, sql)?;
    }
    Ok(())
}

// Makes what these steps say, but for so many of the first.
fn make_steps<S: Alter>(
    tx: &mut Transaction<'_, S>,
    steps: &[&[&str]],
    from: u64,
) -> Result<(), StoreFault>
    ensures same_reference { tx.new.conn.ghost_name ≡ tx.old.conn.ghost_name }
    ensures runs { RunsSteps S.Store (drop from (map (λ step. map (λ sql. sql.now) step.now) steps.now))
        tx.old.conn.now tx.new.conn.now result }
{
    for place in from as usize..steps.len() {
        make_step(tx, steps[place])?;
    }
    Ok(())
}

// Puts the row of meta: its id, the number of the schema, and the first bug's number.
fn put_meta<S: Alter>(tx: &mut Transaction<'_, S>, first: u32) -> Result<(), StoreFault>
    ensures same_reference { tx.new.conn.ghost_name ≡ tx.old.conn.ghost_name }
    ensures builds { Builds (IsBuilt ⊤ no_rows desk_schema) (IsDeskOf (no_content first))
        (state S.Store tx.old.conn.now) (state S.Store tx.new.conn.now) result }
{
    written(tx.execute("INSERT INTO meta VALUES (1, 3, ?1)", params![first]))
}

/// Makes the tables of a new desk in a database that has none, in a transaction.
/// The desk has no bug, and gives `first` to the first.
pub fn make_tables<S: Alter>(tx: &mut Transaction<'_, S>, first: u32) -> Result<(), StoreFault>
    ensures same_reference { tx.new.conn.ghost_name ≡ tx.old.conn.ghost_name }
    ensures builds { Builds IsBlank (IsDeskOf (no_content first))
        (state S.Store tx.old.conn.now) (state S.Store tx.new.conn.now) result }
{
    make_steps(tx, &STEPS, 0)?;
    put_meta(tx, first)
}

// Sets the number of the schema to the newest.
fn set_number<S: Alter>(tx: &mut Transaction<'_, S>) -> Result<(), StoreFault>
    ensures same_reference { tx.new.conn.ghost_name ≡ tx.old.conn.ghost_name }
    ensures sets { (from : _) (c : Content) (rows : Trees) →
        Builds (IsBuilt (AreNumbered from c rows) rows desk_schema) (IsDeskOf c)
        (state S.Store tx.old.conn.now) (state S.Store tx.new.conn.now) result }
{
    make(tx, "UPDATE meta SET schema = 3 WHERE id = 1")
}

/// Carries the tables of a desk under this schema over to the newest, in a transaction.
/// The desk stays the same: the tables that are made on the way have no row.
pub fn carry_over<S: Alter>(tx: &mut Transaction<'_, S>, from: u64) -> Result<(), StoreFault>
    ensures same_reference { tx.new.conn.ghost_name ≡ tx.old.conn.ghost_name }
    ensures carries { (c : Content) → Builds (IsUnder from c) (IsDeskOf c)
        (state S.Store tx.old.conn.now) (state S.Store tx.new.conn.now) result }
{
    make_steps(tx, &STEPS, from)?;
    set_number(tx)
}
