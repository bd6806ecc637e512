//! How a desk is created in a database, opened, and closed.

ghost use Rattle.std.specs.Prelude.{◌≡◌, ◌≢◌, ◌↔◌, ◌<◌, ◌≤◌, false, true};
ghost use Rattle.std.specs.Prelude.{IfOk, IfErr, IsErrAnd, IsTrue, MatchResult};
ghost use Rattle.sqlite.specs.Held.{state};
ghost use Rattle.sqlite.specs.State.{HasCleanDisk, Survives};
ghost use Rattle.base_words.specs.declared.named.TheConstants.{LARGEST_NUMBER};
ghost use Rattle.base_faults.specs.declared.store_fault.StoreFault.TheVariants.{Foreign};
ghost use Rattle.store_keys.specs.Keys.{empty_desk};
ghost use Rattle.table_content.specs.Content.{Content, no_content};
ghost use Rattle.table_content.specs.Kept.{IsKeptContent};
ghost use Rattle.table_history.specs.Names.{no_tables, has_desk_table};
ghost use Rattle.store_contract.specs.Kept.{none_kept};
ghost use Rattle.store_contract.specs.Store.{no_faults};
ghost use Rattle.desk_tables.specs.Desk.{connection_of, state_of, content_shown, desk_of};
ghost use Rattle.desk_tables.specs.Desk.{keeping_of, faults_of, HasHonestDisk, HasKeptTables};
ghost use Rattle.table_opening.specs.Opening.{unlimited, IsLeft, IsFailureOf, IsReason, SaysEarlier, SaysDesk};
ghost use Rattle.table_opening.specs.Shown.{HasContent, HasContentUnder, HoldsContent, AreTablesOf};
ghost use Rattle.table_opening.specs.declared.open_fault.OpenFault.TheVariants as fault;

use crate::desk::TableDesk;
use sqlite::{Alter, Connection};
use std::alloc::Global;
use std::snapshot::Snapshot;
use table_history::NEWEST;
use table_opening::{OpenFault, create_tables, find_desk};

impl<S: Alter> TableDesk<S> {
    /// Creates a desk in a database with no tables; its first bug gets this number: 1 to
    /// 999,999,999.
    /// A refusal hands the connection back, and the tables are left as they were: `NotEmpty`
    /// exactly where a table has the name of one of a desk's, `Store(Foreign)` where there are
    /// other tables, indexes or views, and else what the store failed for.
    /// From now on no statement has a limit of steps.
    /// A crash at any moment of the call leaves what it would have left before, or the new desk;
    /// where there are tables it leaves what it would have left before.
    pub fn create(
        alloc: Global,
        conn: Connection<S>,
        first: u64,
    ) -> Result<TableDesk<S>, (OpenFault, Connection<S>)>
        requires autocommit { conn.in_transaction ≡ false }
        requires some { 1 ≤ first }
        requires few { first ≤ LARGEST_NUMBER }
        ensures serves { IfOk result (λ d. HasHonestDisk d → IsTrue (state_of d).is_open) }
        ensures kept { IfOk result (λ d. HasHonestDisk d → HasKeptTables d) }
        ensures empty { IfOk result (λ d. HasHonestDisk d → desk_of d ≡ empty_desk first) }
        ensures none_kept { IfOk result (λ d. HasHonestDisk d → keeping_of d ≡ none_kept) }
        ensures counts { IfOk result (λ d. faults_of d ≡ no_faults) }
        ensures not_empty { IsErrAnd result (λ e. e.0 ≡ fault.NotEmpty) ↔
            (has_desk_table (state S.Store conn).now.schema ≡ true) }
        ensures foreign { has_desk_table (state S.Store conn).now.schema ≡ false →
            (state S.Store conn).now.schema ≢ no_tables →
            IsErrAnd result (λ e. e.0 ≡ fault.Store Foreign) }
        ensures blank { (state S.Store conn).now.schema ≡ no_tables →
            IfErr result (λ e. HasCleanDisk (state S.Store e.1) →
            IsFailureOf (unlimited (state S.Store conn)) (state S.Store e.1) e.0) }
        ensures left { IfErr result (λ e. IsLeft (state S.Store conn) (state S.Store e.1)) }
        ensures crash { MatchResult result
            (λ d. Survives (unlimited (state S.Store conn)) (state_of d)
            (AreTablesOf (no_content first)))
            (λ e. Survives (unlimited (state S.Store conn)) (state S.Store e.1)
            (AreTablesOf (no_content first))) }
        ensures spared { (state S.Store conn).now.schema ≢ no_tables →
            IfErr result (λ e. Survives (unlimited (state S.Store conn)) (state S.Store e.1)
            (λ _. ⊥)) }
    {
        let mut conn = conn;
        conn.set_step_limit(None);
        match create_tables(&mut conn, first as u32) {
            Ok(()) => {
                let last = Snapshot::of(&conn);
                Ok(TableDesk::found(alloc, conn, last))
            }
            Err(fault) => Err((fault, conn)),
        }
    }

    /// Opens the desk that a database holds; no more is read than the number of its schema.
    /// Tables kept under schema 1 or 2 are carried over to schema 3, in one transaction; the desk
    /// stays the same: no message that has an id is known, and under schema 1 no bug affects
    /// another package.
    /// The tables of a database that says neither 1 nor 2 are left as they were.
    /// A refusal leaves the tables, and hands the connection back: `NotADesk` where the database
    /// says no number of a desk's schema, `NewerSchema` where it says one above 3, and else what
    /// the store failed for, which may be `Foreign` where the tables say 1 or 2 and are no desk's.
    /// The desk is kept where the tables are a desk's and say what a desk keeps.
    /// Where a desk was carried over, the connection serves.
    /// From now on no statement has a limit of steps.
    /// A crash at any moment of the call leaves what it would have left before, or, where the
    /// tables are carried over, the same desk under schema 3.
    pub fn open(
        alloc: Global,
        conn: Connection<S>,
    ) -> Result<TableDesk<S>, (OpenFault, Connection<S>)>
        requires autocommit { conn.in_transaction ≡ false }
        ensures honest { IfOk result (λ d. HasHonestDisk d → HasCleanDisk (state S.Store conn)) }
        ensures content { IfOk result (λ d. (c : Content) → HasHonestDisk d →
            HoldsContent c (state S.Store conn) → content_shown d ≡ c) }
        ensures kept { IfOk result (λ d. (c : Content) → HasHonestDisk d →
            HoldsContent c (state S.Store conn) → IsKeptContent c → HasKeptTables d) }
        ensures says { IfOk result (λ d. HasHonestDisk d →
            IsTrue (state S.Store conn).is_open × SaysDesk (state S.Store conn).now) }
        ensures serves { IfOk result (λ d. (k : _) (c : Content) → HasHonestDisk d → k < NEWEST →
            HasContentUnder k c (state S.Store conn) → IsTrue (state_of d).is_open) }
        ensures counts { IfOk result (λ d. faults_of d ≡ no_faults) }
        ensures why { IfErr result (λ e. IsReason (state S.Store conn) (state S.Store e.1) e.0) }
        ensures desk { (c : Content) → HoldsContent c (state S.Store conn) →
            IfErr result (λ e. HasCleanDisk (state S.Store e.1) →
            IsFailureOf (unlimited (state S.Store conn)) (state S.Store e.1) e.0) }
        ensures left { MatchResult result
            (λ d. (c : Content) → HasHonestDisk d → HasContent c (state S.Store conn) →
            IsLeft (state S.Store conn) (state_of d))
            (λ e. IsLeft (state S.Store conn) (state S.Store e.1)) }
        ensures other { MatchResult result
            (λ d. (HasHonestDisk d → ¬ (SaysEarlier (state S.Store conn).now)) →
            IsLeft (state S.Store conn) (state_of d) × Survives (unlimited (state S.Store conn))
            (state_of d) (λ _. ⊥))
            (λ e. (HasCleanDisk (state S.Store e.1) → ¬ (SaysEarlier (state S.Store conn).now)) →
            Survives (unlimited (state S.Store conn)) (state S.Store e.1) (λ _. ⊥)) }
        ensures crash { (k : _) (c : Content) → MatchResult result
            (λ d. (HasHonestDisk d → HasContentUnder k c (state S.Store conn)) →
            Survives (unlimited (state S.Store conn)) (state_of d)
            (λ db. (k < NEWEST) × AreTablesOf c db))
            (λ e. (HasCleanDisk (state S.Store e.1) → HasContentUnder k c (state S.Store conn)) →
            Survives (unlimited (state S.Store conn)) (state S.Store e.1)
            (λ db. (k < NEWEST) × AreTablesOf c db)) }
    {
        let mut conn = conn;
        conn.set_step_limit(None);
        match find_desk(&mut conn) {
            Ok(last) => Ok(TableDesk::found(alloc, conn, last)),
            Err(fault) => Err((fault, conn)),
        }
    }

    /// Hands the connection back.
    /// It takes no memory.
    pub fn close(self) -> Connection<S>
        ensures conn { result ≡ connection_of self }
        ensures autocommit { result.in_transaction ≡ false }
    {
        self.into_connection()
    }
}
