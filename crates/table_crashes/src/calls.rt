//! A crash between two calls, and one right after a call.

ghost use Rattle.std.specs.Prelude.{◌⊎◌, IfOk, IfSome, IsOk};
ghost use Rattle.std.specs.Option.{option_copied};
ghost use Rattle.sqlite.specs.Held.{state};
ghost use Rattle.sqlite_trees.specs.Tree.{Trees};
ghost use Rattle.bug_record.specs.Desk.{Desk};
ghost use Rattle.bug_record.specs.Sets.{Each};
ghost use Rattle.bug_record.specs.Images.{AreApart, HasMember, FitsDesk, put};
ghost use Rattle.base_words.specs.Texts.{IsText, IfGiven};
ghost use Rattle.base_words.specs.Ids.{IsId};
ghost use Rattle.store_contract.specs.Crashes.{Holding};
ghost use Rattle.store_contract.specs.Kept.{Keeping, kept_also};
ghost use Rattle.store_contract.specs.Store.{Since, MayBeKept, with_change};
ghost use Rattle.desk_tables.specs.Desk.{desk_of, MayKeep, LeavesTables};
ghost use Rattle.table_crashes.specs.Settled.{HasHonestDisk, HasKeptTables, IsSettled, IsOpenedOver, HasTakenBranch, HasTakenLine};

use crate::left::crash_and_find;
use base_faults::StoreFault;
use bug_record::{Change, Outcome};
use desk_tables::TableDesk;
use sqlite::Alter;
use sqlite_trees::store::Reopen;
use std::alloc::Global;
use store_contract::Records;
use version_nodes::{BranchFault, Node};

/// Crashes at this moment, between two calls, and opens what is left.
/// Where the desk was settled, what is opened is the same desk, with what is kept of messages,
/// and settled: nothing that was answered is lost.
/// Where a crash leaves one of two, what is opened is one of them, and settled.
/// `None` where it is not opened: out of memory, or by a fault of the store.
pub fn crash_and_open<S: Alter + Reopen + Drop>(
    alloc: Global,
    desk: TableDesk<S>,
) -> Option<TableDesk<S>>
    ensures honest { IfSome result (λ again. HasHonestDisk S.Store again → HasHonestDisk S.Store desk) }
    ensures left { IfSome result (λ again. HasHonestDisk S.Store again →
        (db : Trees) × (state S.Store desk.conn).may_leave db × IsOpenedOver S.Store db again) }
    ensures settled { IfSome result (λ again. HasHonestDisk S.Store again →
        (d : Desk) (k : Keeping) → IsSettled S.Store d k desk → IsSettled S.Store d k again) }
    ensures either { IfSome result (λ again. HasHonestDisk S.Store again → (a b : Holding) → LeavesTables desk a b →
        IsSettled S.Store a.0 a.1 again ⊎ IsSettled S.Store b.0 b.1 again) }
{
    crash_and_find(alloc, desk.close())
}

/// Carries a change out, and crashes right after the call, whatever it answered; then it opens
/// what is left.
/// Where the desk was settled, what is opened is the desk before the change or the desk after it,
/// and settled; where the change was answered as made, it is the desk after it.
/// Of the change it asks what `Records::apply` asks.
/// The second answer is `None` where nothing is opened: out of memory, or by a fault of the
/// store.
pub fn apply_and_crash<S: Alter + Reopen + Drop>(
    alloc: Global,
    desk: TableDesk<S>,
    change: &Change,
) -> (Result<(), StoreFault>, Option<TableDesk<S>>)
    requires apart { HasKeptTables S.Store desk → HasHonestDisk S.Store desk → AreApart change.now.images }
    requires members { Each HasMember change.now.images }
    requires fits { HasKeptTables S.Store desk → HasHonestDisk S.Store desk →
        FitsDesk (desk_of desk) change.now }
    ensures either { IfSome result.1 (λ again. HasHonestDisk S.Store again → (d : Desk) (k : Keeping) → IsSettled S.Store d k desk →
        IsSettled S.Store d k again ⊎ IsSettled S.Store (put d change.now) k again) }
    ensures done { IfSome result.1 (λ again. HasHonestDisk S.Store again → IsOk result.0 → (d : Desk) (k : Keeping) → IsSettled S.Store d k desk →
        IsSettled S.Store (put d change.now) k again) }
{
    let mut desk = desk;
    let done = desk.apply(change);
    let again = crash_and_open(alloc, desk);
    (done, again)
}

/// Takes a branch, and crashes right after the call, whatever it answered; then it opens what is
/// left.
/// Where the desk was settled, what is opened is the desk before the branch or the desk after it,
/// and settled; where the branch was answered as taken, it is the desk after it.
/// The second answer is `None` where nothing is opened: out of memory, or by a fault of the
/// store.
pub fn branch_and_crash<S: Alter + Reopen + Drop>(
    alloc: Global,
    desk: TableDesk<S>,
    nodes: &[Node],
) -> (
    Result<Result<(), BranchFault>, StoreFault>,
    Option<TableDesk<S>>,
)
    ensures either { IfSome result.1 (λ again. HasHonestDisk S.Store again → (d : Desk) (k : Keeping) → IsSettled S.Store d k desk →
        IsSettled S.Store d k again ⊎ HasTakenBranch S.Store d k nodes.now again) }
    ensures done { IfSome result.1 (λ again. HasHonestDisk S.Store again → IfOk result.0 (λ taken. IsOk taken → (d : Desk) (k : Keeping) → IsSettled S.Store d k desk →
        HasTakenBranch S.Store d k nodes.now again)) }
{
    let mut desk = desk;
    let taken = desk.branch(nodes);
    let again = crash_and_open(alloc, desk);
    (taken, again)
}

/// Keeps an outcome of a line of a message that has an id, with the line's change, if there is one,
/// and crashes right after the call, whatever it answered; then it opens what is left.
/// Where the desk was settled, and the outcome and the change may be kept there, what is opened has
/// neither of them or both, and is settled; where the call was answered as done, it has both.
/// Where it has both, it is the desk after a call that took this one line of the message, of which
/// the law `desk_run::each_line_acts_once` says that no later call takes it again.
/// It asks what `Records::keep` asks.
/// The second answer is `None` where nothing is opened: out of memory, or by a fault of the
/// store.
pub fn keep_and_crash<S: Alter + Reopen + Drop>(
    alloc: Global,
    desk: TableDesk<S>,
    id: &str,
    from: &str,
    message: &str,
    outcome: &Outcome,
    change: Option<&Change>,
) -> (Result<(), StoreFault>, Option<TableDesk<S>>)
    requires id { IsId id.now }
    requires sender { IsText from.now }
    requires members { IfGiven (λ (c : Change). Each HasMember c.images) (option_copied change) }
    requires apart { HasKeptTables S.Store desk → HasHonestDisk S.Store desk → IfGiven (λ (c : Change). AreApart c.images) (option_copied change) }
    requires fits { HasKeptTables S.Store desk → HasHonestDisk S.Store desk →
        IfGiven (FitsDesk (desk_of desk)) (option_copied change) }
    requires next { Since (HasKeptTables S.Store) (HasHonestDisk S.Store) desk
        (MayKeep desk id.now from.now message.now outcome.now (option_copied change)) }
    ensures either { IfSome result.1 (λ again. HasHonestDisk S.Store again → (d : Desk) (k : Keeping) → IsSettled S.Store d k desk →
        MayBeKept id.now from.now message.now k d outcome.now (option_copied change.entry) →
        IsSettled S.Store d k again ⊎ IsSettled S.Store (with_change (option_copied change.entry) d) (kept_also id.now from.now message.now outcome.now k) again) }
    ensures taken { IfSome result.1 (λ again. HasHonestDisk S.Store again → (d : Desk) (k : Keeping) → IsSettled S.Store d k desk →
        MayBeKept id.now from.now message.now k d outcome.now (option_copied change.entry) →
        IsSettled S.Store d k again ⊎ HasTakenLine S.Store id.now from.now message.now outcome.now d k again) }
    ensures done { IfSome result.1 (λ again. HasHonestDisk S.Store again → IsOk result.0 → (d : Desk) (k : Keeping) → IsSettled S.Store d k desk →
        MayBeKept id.now from.now message.now k d outcome.now (option_copied change.entry) →
        IsSettled S.Store (with_change (option_copied change.entry) d) (kept_also id.now from.now message.now outcome.now k) again) }
{
    let mut desk = desk;
    let kept = desk.keep(id, from, message, outcome, change);
    let again = crash_and_open(alloc, desk);
    (kept, again)
}
