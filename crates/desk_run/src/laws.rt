//! That each line of a message with an id acts once at most, and in order.

ghost use Rattle.std.specs.Prelude.{◌≡◌, ◌++◌, ℕ, List, Option};
ghost use Rattle.std.specs.Prelude.{Ok, Err};
ghost use Rattle.bug_record.specs.Desk.{Desk};
ghost use Rattle.bug_record.specs.declared.command.Change.{Change};
ghost use Rattle.bug_record.specs.declared.outcome.Outcome.{Outcome};
ghost use Rattle.store_contract.specs.declared.outcomes_so_far.Received.{Received};
ghost use Rattle.message_receiving.specs.Once.{IsOnce};
ghost use Rattle.message_receiving.specs.declared.once.OnceFault.{OnceFault};
ghost use Rattle.store_contract.specs.Store.{MayBeKept, with_change};
ghost use Rattle.store_contract.specs.Kept.{Keeping, AreGoodKept, kept_also};
ghost use Rattle.desk_run.specs.Calls.{State, Call, Does, Other, InTurn, TookOne};
ghost use Rattle.desk_run.specs.Calls.{taken_in, told_of, IsSameMessage, IsSent};

/// Over every list of calls of a store, with other messages, faults, crashes and openings between
/// them: the lines that calls took of the message of an id are, in the order in which they were
/// taken, those that have a kept outcome at the end and had none at the beginning, each once, with
/// the outcome that is kept of it.
/// So no line acts twice, none acts before the one above it, and what is kept of an id never
/// becomes the message of another sender or another text.
pub fn each_line_acts_once()
    ensures once { (id : List ℕ) (calls : List Call) (old new : State) → InTurn calls old new
        → told_of (new.1 id) ≡ told_of (old.1 id) ++ taken_in id calls }
    ensures same { (id : List ℕ) (calls : List Call) (old new : State) → InTurn calls old new
        → IsSameMessage (old.1 id) (new.1 id) }
{}

/// What `receive_once` answers makes it a call of such a list, where what is kept is right, as it
/// is of every store whose tables are kept.
/// Where it answers outcomes, they are those that were kept and those of the lines that it took: of
/// the first lines that have an outcome, in order, and at the end `All` of each of them.
/// Where it answers a fault, nothing has changed.
pub fn a_sent_message_takes_its_next_lines()
    ensures sent { (id sender message : List ℕ) (received : Received) (d e : Desk) (k l : Keeping) → AreGoodKept k
        → IsOnce id sender message d k (Ok received) e l
        → IsSent id sender message received.outcomes received.end (d, k) (e, l) }
    ensures refused { (id sender message : List ℕ) (fault : OnceFault) (d e : Desk) (k l : Keeping)
        → IsOnce id sender message d k (Err fault) e l → (e ≡ d) × Does Other (d, k) (e, l) }
{}

/// A store that keeps one outcome, with its change, has made a call of such a list that took one
/// line.
/// So a message that a crash cuts is as many of these calls as it has lines that were kept before
/// the crash, wherever it was cut, and each line of it acts once at most, too.
pub fn a_kept_outcome_takes_its_line()
    ensures { (id sender message : List ℕ) (outcome : Outcome) (change : Option Change) (d : Desk) (k : Keeping)
        → MayBeKept id sender message k d outcome change
        → TookOne id sender message outcome (d, k) (with_change change d, kept_also id sender message outcome k) }
{}
