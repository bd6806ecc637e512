//! What a command makes of the packages that a bug affects.

ghost use Rattle.std.specs.Prelude.{◌≡◌, OnOk};
ghost use Rattle.bug_record.specs.Steps.{affects_after};

use bug_record::{AffectsStep, Names, add_all_names, remove_names, replace_names};
use debver::Text;
use std::alloc::AllocError;

/// Takes this step with these names.
pub(crate) fn affect(
    affects: &mut Names,
    step: AffectsStep,
    names: &[Text],
) -> Result<(), AllocError>
    ensures { OnOk result (affects.new ≡ affects_after step names.now affects.old) }
{
    match step {
        AffectsStep::Add => add_all_names(affects, names),
        AffectsStep::Remove => remove_names(affects, names),
        AffectsStep::Replace => replace_names(affects, names),
    }
}
