//! The law of lists.
//! Its body is empty: the contract is the law.

ghost use Rattle.std.specs.Prelude.{◌≡◌, ◌<◌, ℕ, List, Some, IsTrue};
ghost use Rattle.version_nodes.specs.Nodes.{Node};
ghost use Rattle.bug_record.specs.Desk.{Desk};
ghost use Rattle.bug_record.specs.Lists.{listed};
ghost use Rattle.bug_record.specs.Sets.{has};
ghost use Rattle.bug_record.specs.declared.bug.Bug.{Bug};
ghost use Rattle.message_directives.specs.Readable.{IsIn};

/// A bug, of a number below the next one, as each bug of a sound desk has it, is in the list of a
/// package at a version exactly where it belongs there.
/// That is said by its package and those that it affects, whether it is archived or closed, its two
/// sets of marks and the line of the version, without its status.
pub fn a_list_has_the_bugs_found_there()
    ensures only { (d : Desk) (name : List ℕ) (version : Node) (n : ℕ) → IsTrue (has (listed d name version) n)
        → (b : Bug) × (d.bug n ≡ Some b) × IsIn d.tree name version b.shared }
    ensures all { (d : Desk) (name : List ℕ) (version : Node) (n : ℕ) (b : Bug) → n < d.next → d.bug n ≡ Some b
        → IsIn d.tree name version b.shared → IsTrue (has (listed d name version) n) }
{}
