//! What has come of a message so far.

ghost use Rattle.std.specs.Prelude.{◌≡◌, ◌∷◌, ◌++◌, ◌<◌, [], vec_len, vec_capacity, IfOk, OnOk, OnErr, Result, if◌then◌else◌};
ghost use Rattle.store_contract.specs.Message.{is_stop, is_unreadable, unreadable_count, end_of, known_names};
ghost use Rattle.store_contract.specs.Progress.{goes_on, IsReady};

use crate::known::KnownNames;
use base_faults::{End, StoreFault};
use bug_record::{Outcome, Refusal, Sequence};
use debver::Text;
use std::alloc::Global;

/// The outcomes of a message, each with its line as written, and its end.
#[derive(Drop)]
pub struct Received {
    pub outcomes: Sequence<(Text, Outcome)>,
    pub end: End,
}

/// What has come of a message so far, each outcome with its line, how many of its lines could not
/// be read, and the names that it has given.
#[derive(Drop)]
pub struct Progress {
    pub outcomes: Vec<(Text, Outcome)>,
    pub unreadable: u64,
    pub known: KnownNames,
}

impl Progress {
    /// What there is before the first line.
    /// It takes no memory.
    pub fn new(alloc: Global) -> Progress
        ensures outcomes { result.outcomes.items ≡ [] }
        ensures readable { result.unreadable ≡ 0 }
        ensures names { result.known.names ≡ [] }
    {
        Progress {
            outcomes: Vec::new(alloc),
            unreadable: 0,
            known: KnownNames::new(alloc),
        }
    }

    /// What was received of a message that ends so.
    /// It takes no memory.
    pub fn received(self, end: End) -> Received
        ensures outcomes { result.outcomes ≡ self.outcomes.items }
        ensures end { result.end ≡ end }
    {
        Received {
            outcomes: Sequence::from_vec(self.outcomes),
            end,
        }
    }
}

fn is_stop(outcome: &Outcome) -> bool
    ensures { result ≡ is_stop outcome.now }
{
    match outcome {
        Outcome::Stopped => true,
        _ => false,
    }
}

// 1 for a line that could not be read.
fn unreadable_lines(outcome: &Outcome) -> u64
    ensures { result ≡ (if is_unreadable outcome.now then 1 else 0) }
{
    match outcome {
        Outcome::Refused(Refusal::Unknown) => 1,
        Outcome::Refused(Refusal::Malformed) => 1,
        _ => 0,
    }
}

/// Makes room for an outcome, and copies its line.
pub fn make_room(outcomes: &mut Vec<(Text, Outcome)>, line: &Text) -> Result<Text, StoreFault>
    ensures same { outcomes.new.items ≡ outcomes.old.items }
    ensures room { OnOk result (vec_len outcomes.new < vec_capacity outcomes.new) }
    ensures text { IfOk result (λ text. text ≡ line.now) }
    ensures memory { OnErr result (result ≡ Result.Err StoreFault.Memory) }
{
    outcomes.reserve(1)?;
    Ok(line.copy()?)
}

// Adds an outcome where there is room.
fn add(outcomes: &mut Vec<(Text, Outcome)>, text: Text, outcome: Outcome)
    requires { vec_len outcomes.old < vec_capacity outcomes.old }
    ensures { outcomes.new.items ≡ outcomes.old.items ++ (text, outcome) ∷ [] }
{
    let _ = outcomes.push((text, outcome));
}

/// Adds the outcome of a line where there is room and the names are known that the line gives, and
/// says whether it ends the message, which goes on at `All`.
/// It takes no memory.
pub fn settle(progress: &mut Progress, text: Text, outcome: Outcome) -> End
    requires room { vec_len progress.old.outcomes < vec_capacity progress.old.outcomes }
    requires ready { IsReady progress.old.outcomes.items progress.old.unreadable progress.old.known.names (text, outcome) }
    ensures added { progress.new.outcomes.items ≡ progress.old.outcomes.items ++ (text, outcome) ∷ [] }
    ensures counted { progress.new.unreadable ≡ unreadable_count progress.new.outcomes.items }
    ensures known { progress.new.known.names ≡ known_names progress.new.outcomes.items }
    ensures names { progress.new.known.names ≡ progress.old.known.names }
    ensures end { end_of progress.new.outcomes.items ≡ result }
{
    let stops = is_stop(&outcome);
    progress.unreadable += unreadable_lines(&outcome);
    add(&mut progress.outcomes, text, outcome);
    if stops {
        End::Stopped
    } else if progress.unreadable >= 5 {
        End::TooManyUnreadable
    } else {
        End::All
    }
}

/// Whether a message goes on, which it does at `All`.
/// It takes no memory.
pub fn goes_on(end: End) -> bool
    ensures { result ≡ goes_on end }
{
    match end {
        End::All => true,
        _ => false,
    }
}
