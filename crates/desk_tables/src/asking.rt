//! A question of what the tables of a desk say.

ghost use Rattle.std.specs.Prelude.{◌≡◌};
ghost use Rattle.sqlite.specs.Held.{state};
ghost use Rattle.table_content.specs.Content.{Content};
ghost use Rattle.desk_tables.specs.Transactions.{AsksInside};

use base_faults::StoreFault;
use sqlite::{Alter, Transaction};

/// A question of what the tables of a desk say.
pub(crate) trait Question {
    /// What it is answered by.
    type Answer;

    /// What the tables have to say, so that it is answered, and by a right answer.
    ghost fits: { Self → Content → Type 0 };

    /// The answer is right of what the tables say.
    ghost right: { Self → Content → Self.Answer → Type 0 };

    /// Asks it within a transaction.
    fn ask<S: Alter>(&self, tx: &mut Transaction<'_, S>) -> Result<Self::Answer, StoreFault>
        ensures same_reference { tx.new.conn.ghost_name ≡ tx.old.conn.ghost_name }
        ensures asks { AsksInside (state S.Store tx.old.conn.now) (state S.Store tx.new.conn.now)
            result (fits self.now) (right self.now) };
}
