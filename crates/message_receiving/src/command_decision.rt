//! What one command of a message comes to, decided by questions to a store.

ghost use Rattle.std.specs.Option.{option_copied};
ghost use Rattle.std.specs.Prelude.{◌≡◌, ◌++◌, ℕ, List, None, IsTrue, IfOk, OnErr, Result};
ghost use Rattle.bug_record.specs.Sets.{Each};
ghost use Rattle.base_words.specs.Texts.{IsText, IfGiven};
ghost use Rattle.bug_record.specs.Desk.{Desk, IsSound};
ghost use Rattle.bug_record.specs.Steps.{step};
ghost use Rattle.bug_record.specs.Changed.{AreChanged, Replaces, changed_numbers};
ghost use Rattle.bug_record.specs.Images.{AreApart, HasMember, bug_in, put};
ghost use Rattle.bug_record.specs.Plans.{IsShownBy, IsOpenHeadFor};
ghost use Rattle.bug_record.specs.Clones.{name_refusal};
ghost use Rattle.bug_record.specs.Commands.{HasGoodParts, bugs_named, names_in};
ghost use Rattle.bug_record.specs.Words.{Names};
ghost use Rattle.base_words.specs.Bugs.{IsGoodBug};
ghost use Rattle.base_words.specs.Numbers.{IsGoodNumber};
ghost use Rattle.store_contract.specs.Store.{Asks, Answers, faults_after};
ghost use Rattle.store_contract.specs.Known.{AreOfBugs};
ghost use Rattle.store_contract.specs.Telling.{result_meant, step_among};
ghost use Rattle.store_contract.specs.Progress.{HaveNumbers};
ghost use Rattle.message_plans.specs.Changes.{MayBeMade, Fits};
ghost use Rattle.message_receiving.specs.Commands.{LeavesFirst, Makes, DecidesTold, Decides};
ghost use Rattle.bug_images.specs.Alike.{BeginAlike};
ghost use Rattle.store_contract.specs.Message.{names_of};

use base_faults::StoreFault;
use base_words::Named;
use bug_core::{changed, plan};
use bug_fields::leaves_members;
use bug_images::{bug_named, changed_fields};
use bug_record::{Change, Command, Numbers, Outcome, PlanFault, Refusal, SetImage, VersionArg};
use control_grammar::drop_command;
use message_plans::{ask, written};
use std::alloc::{AllocError, Global};
use store_contract::{
    KnownNames, Records, command_told, name_refusal, names_in, note_names, refusal_meant,
    with_names,
};
use version_nodes::Node;

/// What a line comes to that has an outcome: the outcome, and the change that the line makes, if it
/// makes one.
#[derive(Drop)]
pub struct Decision {
    pub outcome: Outcome,
    pub change: Option<Change>,
}

/// An outcome without a change.
pub(crate) fn without_change(outcome: Outcome) -> Decision
    ensures outcome { result.outcome ≡ outcome }
    ensures change { result.change ≡ None }
{
    Decision {
        outcome,
        change: None,
    }
}

// Whether the first image is that of the bug that a command names, whose titles and submitters it
// leaves.
fn leaves_first(command: &Command<u64>, images: &[SetImage]) -> bool
    ensures { IsTrue result → LeavesFirst command.now images.now }
{
    match images.split_first() {
        Some((first, _others)) => {
            leaves_members(command, first.shared.fields()) && first.has(bug_named(command))
        }
        None => false,
    }
}

// The numbers of the bugs that a planned change changes.
fn numbers_changed(
    alloc: Global,
    command: &Command<u64>,
    images: &[SetImage],
    new: &[SetImage],
) -> Result<Numbers, AllocError>
    requires { LeavesFirst command.now images.now → BeginAlike images.now new.now }
    ensures images { IfOk result (λ r. AreChanged (bug_in images.now) (bug_in new.now) r) }
    ensures desks { IfOk result
        (λ r. (d : Desk) (next : ℕ) → Replaces d images.now new.now next
        → r ≡ changed_numbers d (put d (record { images = new.now; next = next }))) }
{
    if leaves_first(command, images) {
        return changed_fields(alloc, images, new);
    }
    changed(alloc, images, new)
}

// What is made of a planned change: of several images, those with a changed bug are written.
// A change of nothing isn't made.
fn decide_change(
    alloc: Global,
    command: &Command<u64>,
    images: &[SetImage],
    next: u64,
    change: Change,
) -> Result<Decision, StoreFault>
    requires members { Each HasMember change.images }
    requires leaves { LeavesFirst command.now images.now → BeginAlike images.now change.images }
    ensures made { IfOk result (λ decision. (d : Desk) → AreApart change.images → MayBeMade d images.now next change
        → Makes d change decision) }
    ensures members { IfOk result (λ decision. IfGiven (λ c. Each HasMember c.images) decision.change) }
    ensures memory { OnErr result (result ≡ Result.Err StoreFault.Memory) }
{
    let numbers = numbers_changed(alloc, command, images, change.images.as_slice())?;
    if numbers.as_slice().is_empty() && change.next == next {
        return Ok(without_change(Outcome::Changed(numbers)));
    }
    let change = written(alloc, change, numbers.as_slice())?;
    Ok(Decision {
        outcome: Outcome::Changed(numbers),
        change: Some(change),
    })
}

// Decides one command that was told, of what a store showed of it; `taken` is the refusal of the
// names that it gives.
fn decide_shown(
    alloc: Global,
    from: &str,
    taken: Option<Refusal>,
    command: &Command<u64>,
    images: &[SetImage],
    next: u64,
    open_head: Option<&Node>,
) -> Result<Decision, StoreFault>
    requires sender { IsText from.now }
    requires parts { HasGoodParts command.now }
    requires apart { AreApart images.now }
    ensures decided { IfOk result (λ decision. (d : Desk) (names : Names) → IsShownBy d images.now next (bugs_named command.now)
        → IsOpenHeadFor d command.now (option_copied open_head.entry) → taken ≡ name_refusal names (names_in command.now)
        → DecidesTold from.now names d command.now decision) }
    ensures free { IfOk result (λ decision. (numbers : List ℕ) → decision.outcome ≡ Outcome.Changed numbers → taken ≡ None) }
    ensures members { IfOk result (λ decision. IfGiven (λ c. Each HasMember c.images) decision.change) }
    ensures memory { OnErr result (result ≡ Result.Err StoreFault.Memory) }
{
    let planned = plan(alloc, command, from, images, next, open_head);
    match with_names(taken, planned) {
        Ok(change) => decide_change(alloc, command, images, next, change),
        Err(PlanFault::Refused(refusal)) => {
            Ok(without_change(Outcome::Refused(refusal_meant(refusal))))
        }
        Err(PlanFault::Memory) => Err(StoreFault::Memory),
    }
}

// Decides one command that was told; `taken` is the refusal of the names that it gives.
fn decide_told<S: Records>(
    alloc: Global,
    store: &mut S,
    from: &str,
    taken: Option<Refusal>,
    command: &Command<u64>,
) -> Result<Decision, StoreFault>
    requires sender { IsText from.now }
    requires parts { HasGoodParts command.now }
    ensures answer { Asks S.is_kept S.is_honest S.leaves store.old store.new
        (Answers (S.desk store.old) (S.desk store.new) result
        (λ decision. (names : Names) → taken ≡ name_refusal names (names_in command.now)
        → DecidesTold from.now names (S.desk store.old) command.now decision)) }
    ensures free { IfOk result (λ decision. (numbers : List ℕ) → decision.outcome ≡ Outcome.Changed numbers → taken ≡ None) }
    ensures members { IfOk result (λ decision. IfGiven (λ c. Each HasMember c.images) decision.change) }
    ensures stays { S.keeping store.new ≡ S.keeping store.old }
    ensures count { S.faults store.new ≡ faults_after result (S.faults store.old) }
{
    let (images, open_head) = ask(alloc, store, command)?;
    let next = store.next()?;
    let sets = images.as_slice();
    decide_shown(alloc, from, taken, command, sets, next, open_head.as_ref())
}

// Decides one command that was told where these names are known, and notes those that it gives.
fn decide_known<S: Records>(
    alloc: Global,
    store: &mut S,
    from: &str,
    known: &mut KnownNames,
    command: &Command<u64>,
) -> Result<Decision, StoreFault>
    requires sender { IsText from.now }
    requires parts { HasGoodParts command.now }
    ensures answer { Asks S.is_kept S.is_honest S.leaves store.old store.new
        (Answers (S.desk store.old) (S.desk store.new) result
        (DecidesTold from.now known.old.names (S.desk store.old) command.now)) }
    ensures named { IfOk result
        (λ decision. known.new.names ≡ known.old.names ++ names_of (names_in command.now) decision.outcome) }
    ensures members { IfOk result (λ decision. IfGiven (λ c. Each HasMember c.images) decision.change) }
    ensures stays { S.keeping store.new ≡ S.keeping store.old }
    ensures count { S.faults store.new ≡ faults_after result (S.faults store.old) }
{
    let names = names_in(command);
    let taken = name_refusal(alloc, known, names)?;
    let decision = decide_told(alloc, store, from, taken, command)?;
    note_names(known, names, &decision.outcome);
    Ok(decision)
}

// The text of the version becomes the store's, where it has an equal one.
fn share_version<S: Records>(store: &S, version: &mut VersionArg)
    ensures { version.new ≡ version.old }
{
    if let Some(shared) = store.shared_text(version.version.as_str()) {
        version.version = shared;
    }
}

// The same of a version that may be left out.
fn share_given_version<S: Records>(store: &S, version: &mut Option<VersionArg>)
    ensures { version.new ≡ version.old }
{
    if let Some(version) = version {
        share_version(store, version);
    }
}

// The text of a version that a command marks becomes the store's, where it has an equal one, so
// that marks of one version share memory.
fn share_texts<S: Records>(store: &S, command: &mut Command<u64>)
    ensures { command.new ≡ command.old }
{
    match command {
        Command::Found(_, version) => share_given_version(store, version),
        Command::Fixed(_, version) => share_version(store, version),
        Command::Close(_, version) => share_given_version(store, version),
        Command::Reassign(_, _, version) => share_given_version(store, version),
        _ => {}
    }
}

// The command over numbers, as `command_told` makes it, with texts of the store.
fn shared_command<S: Records>(
    alloc: Global,
    store: &S,
    known: &KnownNames,
    command: Command<Named>,
) -> Result<Command<u64>, AllocError>
    ensures meant { IfOk result (λ told. AreOfBugs known.now.names → Each IsGoodBug (bugs_named command)
        → (d : Desk) (sender : List ℕ) → IsSound d
        → result_meant (step_among known.now.names d sender told) ≡ step known.now.names d sender command) }
    ensures parts { IfOk result (λ told. HasGoodParts command → HasGoodParts told) }
    ensures names { IfOk result (λ told. names_in told ≡ names_in command) }
{
    let mut told = command_told(alloc, known, command)?;
    share_texts(store, &mut told);
    Ok(told)
}

/// What one command comes to, which changes nothing yet.
/// The names that are known are then those that an accepted `clone` gives too.
pub(crate) fn decide_command<S: Records>(
    alloc: Global,
    store: &mut S,
    from: &str,
    known: &mut KnownNames,
    command: Command<Named>,
) -> Result<Decision, StoreFault>
    requires sender { IsText from.now }
    requires bugs { Each IsGoodBug (bugs_named command) }
    requires names { Each IsGoodNumber (names_in command) }
    requires parts { HasGoodParts command }
    ensures answer { Asks S.is_kept S.is_honest S.leaves store.old store.new
        (Answers (S.desk store.old) (S.desk store.new) result (λ decision. HaveNumbers known.old.names
        → Decides from.now known.old.names (S.desk store.old) command decision × HaveNumbers known.new.names)) }
    ensures fits { S.is_kept store.new → S.is_honest store.new
        → IfOk result (λ decision. Fits (S.desk store.new) decision.change) }
    ensures named { IfOk result
        (λ decision. known.new.names ≡ known.old.names ++ names_of (names_in command) decision.outcome) }
    ensures members { IfOk result (λ decision. IfGiven (λ c. Each HasMember c.images) decision.change) }
    ensures stays { S.keeping store.new ≡ S.keeping store.old }
    ensures count { S.faults store.new ≡ faults_after result (S.faults store.old) }
{
    match shared_command(alloc, store, known, command) {
        Ok(command) => {
            let decided = decide_known(alloc, store, from, known, &command);
            // In one call, so that what is promised is not proved for each kind of command.
            drop_command(command);
            decided
        }
        Err(_) => Err(StoreFault::Memory),
    }
}
