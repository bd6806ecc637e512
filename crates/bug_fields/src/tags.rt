//! What a command makes of the tags of a bug.

ghost use Rattle.std.specs.Prelude.{◌≡◌, OnOk};
ghost use Rattle.bug_record.specs.Steps.{tags_after};

use bug_record::{TagStep, Tags, remove_tag};
use std::alloc::AllocError;

/// Takes these steps with the tags, in the order written.
pub(crate) fn take_steps(tags: &mut Tags, steps: &[TagStep]) -> Result<(), AllocError>
    ensures { OnOk result (tags.new ≡ tags_after steps.now tags.old) }
{
    for step in steps {
        match step {
            TagStep::Add(tag) => tags.add(*tag)?,
            TagStep::Remove(tag) => remove_tag(tags, *tag),
            TagStep::Clear => *tags = tags.empty(),
        }
    }
    Ok(())
}
