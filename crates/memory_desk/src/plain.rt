//! A desk in memory.

ghost use Rattle.std.specs.Prelude.{◌≡◌, ◌≤◌, None, Ok, IfOk, IfErr, IfSome, OnOk, OnErr};
ghost use Rattle.std.specs.Option.{option_and_then, option_copied};
ghost use Rattle.base_words.specs.declared.named.TheConstants.{LARGEST_NUMBER};
ghost use Rattle.version_nodes.specs.Trees.{Ancestry};
ghost use Rattle.bug_record.specs.Desk.{IsSound};
ghost use Rattle.bug_record.specs.Images.{AreApart, CoverSets, FitsDesk, put};
ghost use Rattle.base_words.specs.Texts.{IsText, IfGiven};
ghost use Rattle.bug_record.proofs.SoundProp.{IsSound-prop};
ghost use Rattle.store_contract.specs.Kept.{none_kept, AreGoodKept};
ghost use Rattle.store_contract.specs.Crashes.{IsEither};
ghost use Rattle.store_contract.proofs.CrashLemmas.{or_other};
ghost use Rattle.store_contract.proofs.KeptProp.{AreGoodKept-prop};
ghost use Rattle.store_contract.specs.Store.{IsImageOf, IsOpenHead, AreWaitingOn, AreListed, Branches, IsRefusal, no_faults};
ghost use Rattle.store_contract.specs.Store.{MayBeKept, Keeps, with_change};
ghost use Rattle.memory_desk.specs.KeptMessages.{keeping_of};
ghost use Rattle.store_sets.specs.Plain.{keyed_of, desk_of};
ghost use Rattle.store_keys.specs.Keys.{empty_desk};

use crate::kept_messages::KeptMessages;
use crate::shared_texts::SharedTexts;
use ancestry::Tree;
use base_faults::StoreFault;
use bug_record::{Change, ListRow, Numbers, Outcome, Sequence, SetImage};
use debver::Text;
use std::alloc::{AllocError, Global};
use store_contract::{Kept, Records, copy_outcome};
use store_sets::{BugSets, open_head};
use version_nodes::{BranchFault, Node};

/// A desk in memory: its bugs by sets, the tree of nodes, and what is kept of messages.
#[derive(Drop)]
pub struct PlainDesk {
    bugs: BugSets,
    tree: Tree,
    next: u64,
    messages: KeptMessages,
    texts: SharedTexts,
    alloc: Global,
    ghost sound: { IsSound (desk_of bugs tree next) } by { IsSound-prop (desk_of bugs tree next) },
    ghost good: { AreGoodKept (keeping_of messages) } by { AreGoodKept-prop (keeping_of messages) },
}

// Makes a change of the bugs and of the next number, if there is one.
// Where there is no memory, all is as before.
fn make(
    alloc: Global,
    bugs: &mut BugSets,
    next: &mut u64,
    change: Option<&Change>,
) -> Result<(), AllocError>
    requires apart { IfGiven (λ (c : Change). AreApart c.images) (option_copied change) }
    requires whole { (tree : Ancestry) → IfGiven (λ (c : Change). CoverSets (desk_of bugs.old tree next.old) c.images)
        (option_copied change) }
    ensures ok { OnOk result ((tree : Ancestry) → desk_of bugs.new tree next.new
        ≡ with_change (option_copied change.entry) (desk_of bugs.old tree next.old)) }
    ensures bugs { OnErr result (keyed_of bugs.new ≡ keyed_of bugs.old) }
    ensures next { OnErr result (next.new ≡ next.old) }
{
    let Some(change) = change else {
        return Ok(());
    };
    bugs.put(alloc, change.images.as_slice())?;
    *next = change.next;
    Ok(())
}

impl PlainDesk {
    /// An empty desk, whose first bug gets this number: 1 to 999,999,999.
    /// Of messages nothing is kept.
    /// It takes no memory.
    pub fn new(alloc: Global, first: u64) -> PlainDesk
        requires some { 1 ≤ first }
        requires few { first ≤ LARGEST_NUMBER }
        ensures desk { desk_of result.bugs result.tree result.next ≡ empty_desk first }
        ensures kept { keeping_of result.messages ≡ none_kept }
    {
        PlainDesk {
            bugs: BugSets::new(alloc),
            tree: Tree::new(alloc),
            next: first,
            messages: KeptMessages::new(alloc),
            texts: SharedTexts::new(alloc),
            alloc,
        }
    }
}

impl Records for PlainDesk {
    ghost desk = { λ s. desk_of s.bugs s.tree s.next };

    ghost keeping = { λ s. keeping_of s.messages };

    ghost is_kept = { λ _. Unit {0} };

    ghost is_honest = { λ _. Unit {0} };

    ghost leaves = { λ s a b. IsEither (desk_of s.bugs s.tree s.next, keeping_of s.messages) a b };

    ghost faults = { λ _. no_faults };

    ghost next_gives = { λ old new answer. (new ≡ old) × (answer ≡ Ok old.next) };

    fn set_of(&mut self, number: u64) -> Result<Option<SetImage>, StoreFault>
        ensures same { self.new ≡ self.old }
        ensures image { IfOk result (IsImageOf (desk_of self.old.bugs self.old.tree self.old.next) number) }
        ensures none { (keyed_of self.old.bugs).key number ≡ None → result ≡ Ok None }
        ensures memory { IfErr result (λ fault. fault ≡ StoreFault.Memory) }
    {
        match self.bugs.image_of(number) {
            Some(image) => Ok(Some(image.copy()?)),
            None => Ok(None),
        }
    }

    fn next(&mut self) -> Result<u64, StoreFault>
        ensures same { self.new ≡ self.old }
        ensures value { result ≡ Ok self.old.next }
    {
        Ok(self.next)
    }

    fn open_head(&mut self, image: &SetImage) -> Result<Option<Node>, StoreFault>
        ensures same { self.new ≡ self.old }
        ensures head { IfOk result (IsOpenHead (desk_of self.old.bugs self.old.tree self.old.next) image.now) }
        ensures memory { IfErr result (λ fault. fault ≡ StoreFault.Memory) }
    {
        Ok(open_head(&self.tree, image.shared.fields())?)
    }

    fn waiting_on(&mut self, number: u64) -> Result<Numbers, StoreFault>
        ensures same { self.new ≡ self.old }
        ensures waiting { IfOk result (AreWaitingOn (desk_of self.old.bugs self.old.tree self.old.next) number) }
        ensures memory { IfErr result (λ fault. fault ≡ StoreFault.Memory) }
    {
        Ok(self.bugs.waiting_on(self.alloc, number)?)
    }

    fn listed(&mut self, package: &str, node: &Node) -> Result<Sequence<ListRow>, StoreFault>
        ensures same { self.new ≡ self.old }
        ensures rows { IfOk result
            (AreListed (desk_of self.old.bugs self.old.tree self.old.next) «package».now node.now) }
        ensures memory { IfErr result (λ fault. fault ≡ StoreFault.Memory) }
    {
        Ok(self.bugs.listed(self.alloc, &self.tree, package, node)?)
    }

    fn apply(&mut self, change: &Change) -> Result<(), StoreFault>
        requires apart { AreApart change.now.images }
        requires fits { FitsDesk (desk_of self.old.bugs self.old.tree self.old.next) change.now }
        ensures done { OnOk result
            (desk_of self.new.bugs self.new.tree self.new.next
            ≡ put (desk_of self.old.bugs self.old.tree self.old.next) change.now) }
        ensures fault { OnErr result
            (desk_of self.new.bugs self.new.tree self.new.next ≡ desk_of self.old.bugs self.old.tree self.old.next) }
        ensures stays { keeping_of self.new.messages ≡ keeping_of self.old.messages }
        ensures memory { IfErr result (λ fault. fault ≡ StoreFault.Memory) }
    {
        make(self.alloc, &mut self.bugs, &mut self.next, Some(change))?;
        Ok(())
    }

    fn branch(&mut self, nodes: &[Node]) -> Result<Result<(), BranchFault>, StoreFault>
        ensures taken { Branches (desk_of self.old.bugs self.old.tree self.old.next)
            (desk_of self.new.bugs self.new.tree self.new.next) result nodes.now }
        ensures refusal { IfOk result IsRefusal }
        ensures stays { keeping_of self.new.messages ≡ keeping_of self.old.messages }
        ensures memory { IfErr result (λ fault. fault ≡ StoreFault.Memory) }
    {
        match self.tree.take_branch(nodes) {
            Ok(()) => {
                // Without memory for it less is shared, and nothing else.
                let _ = self.texts.keep_all(self.alloc, nodes);
                Ok(Ok(()))
            }
            Err(BranchFault::Memory) => Err(StoreFault::Memory),
            Err(refusal) => Ok(Err(refusal)),
        }
    }

    fn kept(&mut self, id: &str) -> Result<Option<Kept>, StoreFault>
        ensures same { self.new ≡ self.old }
        ensures kept { IfOk result (λ kept. kept ≡ keeping_of self.old.messages id.now) }
        ensures memory { IfErr result (λ fault. fault ≡ StoreFault.Memory) }
    {
        match self.messages.get(id) {
            Some(kept) => Ok(Some(kept.copy()?)),
            None => Ok(None),
        }
    }

    fn keep(
        &mut self,
        id: &str,
        from: &str,
        message: &str,
        outcome: &Outcome,
        change: Option<&Change>,
    ) -> Result<(), StoreFault>
        requires sender { IsText from.now }
        requires apart { IfGiven (λ (c : Change). AreApart c.images) (option_copied change) }
        requires fits { IfGiven (FitsDesk (desk_of self.old.bugs self.old.tree self.old.next)) (option_copied change) }
        requires may { MayBeKept id.now from.now message.now (keeping_of self.old.messages)
            (desk_of self.old.bugs self.old.tree self.old.next) outcome.now (option_copied change) }
        ensures kept { Keeps id.now from.now message.now outcome.now (option_copied change.entry)
            (desk_of self.old.bugs self.old.tree self.old.next) (keeping_of self.old.messages) result
            (desk_of self.new.bugs self.new.tree self.new.next) (keeping_of self.new.messages) }
        ensures memory { IfErr result (λ fault. fault ≡ StoreFault.Memory) }
    {
        let Ok(outcome) = copy_outcome(outcome) else {
            return Err(StoreFault::Memory);
        };
        if self
            .messages
            .add(self.alloc, id, from, message, outcome)
            .is_err()
        {
            return Err(StoreFault::Memory);
        }
        match make(self.alloc, &mut self.bugs, &mut self.next, change) {
            Ok(()) => Ok(()),
            Err(_) => {
                self.messages.take_back(id);
                Err(StoreFault::Memory)
            }
        }
    }

    fn shared_text(&self, text: &str) -> Option<Text>
        ensures { IfSome result (λ shared. shared ≡ text.now) }
    {
        self.texts.find(text)
    }

    fn faults(&self) -> u64 {
        0
    }

    ghost sound = { λ s _. s.sound };

    ghost good = { λ s _. s.good };

    ghost either = { λ s a b alone. or_other alone };
}
