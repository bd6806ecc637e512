//! Laws of the definitions that the contracts of this crate cite.

ghost use Rattle.std.specs.Prelude.{◌≡◌, List, Option};
ghost use Rattle.bug_record.specs.Sets.{Each};
ghost use Rattle.control_lines.specs.Lines.{lines_of};
ghost use Rattle.program_options.specs.Cut.{Text};
ghost use Rattle.program_options.specs.Jobs.{IsJobOf};
ghost use Rattle.program_options.specs.Message.{message_text, IsPlainLine};
ghost use Rattle.program_options.specs.declared.job.Job.{Job};

/// Where words name a job that sends lines, none of these is empty and none has a line end, and the
/// text of the message that they are is cut into these lines again.
/// So a message of words has their lines.
pub fn sent_lines_are_cut_again()
    ensures plain { (words : List Text) (store from : Text) (id : Option Text) (lines : List Text) → IsJobOf words (Job.Send store from id lines)
        → Each IsPlainLine lines }
    ensures cut { (words : List Text) (store from : Text) (id : Option Text) (lines : List Text) → IsJobOf words (Job.Send store from id lines)
        → lines_of (message_text lines) ≡ lines }
{}
