//! What a store is asked before a command is planned.

ghost use Rattle.std.specs.Prelude.{◌≡◌, IfOk};
ghost use Rattle.bug_record.specs.Commands.{bugs_named};
ghost use Rattle.bug_record.specs.Images.{AreApart};
ghost use Rattle.bug_record.specs.Plans.{IsOpenHeadFor};
ghost use Rattle.store_contract.specs.Store.{Asks, Answers, faults_after};
ghost use Rattle.message_plans.specs.Images.{ShowBugs};
ghost use Rattle.message_plans.specs.PlanInputs.{IsAnswered};

use crate::images::images_of;
use base_faults::StoreFault;
use bug_images::find_image;
use bug_record::{Command, Sequence, SetImage};
use std::alloc::Global;
use store_contract::Records;
use version_nodes::Node;

// The open head of the bug that is to be archived, by its image; no other command needs one.
fn open_head_for<S: Records>(
    store: &mut S,
    command: &Command<u64>,
    images: &[SetImage],
) -> Result<Option<Node>, StoreFault>
    requires shown { S.is_kept store.old → S.is_honest store.old
        → ShowBugs (S.desk store.old) (bugs_named command.now) images.now }
    ensures answer { Asks S.is_kept S.is_honest S.leaves store.old store.new
        (Answers (S.desk store.old) (S.desk store.new) result (IsOpenHeadFor (S.desk store.old) command.now)) }
    ensures stays { S.keeping store.new ≡ S.keeping store.old }
    ensures count { S.faults store.new ≡ faults_after result (S.faults store.old) }
{
    let Command::Archive(number) = command else {
        return Ok(None);
    };
    match find_image(images, *number) {
        Some(image) => store.open_head(image),
        None => Ok(None),
    }
}

/// The images of the sets of a command's bugs, and the open head of the bug that is to be archived.
pub fn ask<S: Records>(
    alloc: Global,
    store: &mut S,
    command: &Command<u64>,
) -> Result<(Sequence<SetImage>, Option<Node>), StoreFault>
    ensures answer { Asks S.is_kept S.is_honest S.leaves store.old store.new
        (Answers (S.desk store.old) (S.desk store.new) result (IsAnswered (S.desk store.old) command.now)) }
    ensures apart { IfOk result (λ answers. AreApart answers.0) }
    ensures stays { S.keeping store.new ≡ S.keeping store.old }
    ensures count { S.faults store.new ≡ faults_after result (S.faults store.old) }
{
    let images = images_of(alloc, store, command)?;
    let open_head = open_head_for(store, command, images.as_slice())?;
    Ok((images, open_head))
}
