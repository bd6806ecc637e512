//! Laws of the definitions that the contracts of this crate cite.
//! Each body is empty: the contract is the law.

ghost use Rattle.std.specs.Prelude.{◌≡◌, ◌<◌, ◌^◌, ℕ, Bool, List, length, Some};
ghost use Rattle.version_nodes.specs.declared.statuses.MarkKind.{MarkKind};
ghost use Rattle.bug_record.specs.Severities.{rank};
ghost use Rattle.bug_record.specs.Tags.{IsTagSet, all_tags};
ghost use Rattle.bug_record.specs.declared.severity.Severity.{Severity};
ghost use Rattle.bug_record.specs.declared.tag.Tag.{Tag};
ghost use Rattle.bug_record.specs.declared.outcome.Outcome.{Outcome};
ghost use Rattle.table_encodings.specs.Encodings.{severity_in, flag, flag_in, kind_number, kind_in, tags_number, tags_in};
ghost use Rattle.table_encodings.specs.Outcomes.{bare, outcome_kind, outcome_number, outcome_field, outcome_node, outcome_in};

/// Each severity, flag and kind of marks is read back from its number, each set of tags from its
/// own, and each outcome, without the numbers of an accepted line, from those that stand for it.
/// The numbers of tags are those below 131,072, and each is that of its tags.
pub fn numbers_are_read_back()
    ensures severity { (severity : Severity) → severity_in (rank severity) ≡ Some severity }
    ensures flags { (is_set : Bool) → flag_in (flag is_set) ≡ Some is_set }
    ensures kinds { (kind : MarkKind) → kind_in (kind_number kind) ≡ Some kind }
    ensures tags { (tags : List Tag) → IsTagSet tags → tags_in (tags_number tags) ≡ tags }
    ensures below { (tags : List Tag) → tags_number tags < 2 ^ length all_tags }
    ensures numbers { (number : ℕ) → number < 2 ^ length all_tags → tags_number (tags_in number) ≡ number }
    ensures outcomes { (outcome : Outcome) →
        outcome_in (outcome_kind outcome) (outcome_number outcome) (outcome_field outcome) (outcome_node outcome) ≡ Some (bare outcome) }
{}
