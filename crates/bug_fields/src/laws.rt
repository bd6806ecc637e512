//! Laws of the sets of marks, and of what merged bugs have together.
//! Each body is empty: the contract is the law.

ghost use Rattle.std.specs.Prelude.{◌≡◌, ℕ, List, ◌||◌, ◌&&◌, not};
ghost use Rattle.std.specs.List.{list_any};
ghost use Rattle.std.specs.List.Sorted.{IsStrictlySortedBy};
ghost use Rattle.version_nodes.specs.Nodes.{Node, same_node, node_cmp};
ghost use Rattle.bug_record.specs.Sets.{has, IsAscending};
ghost use Rattle.bug_record.specs.Marks.{with_node, without_node};
ghost use Rattle.bug_record.specs.PackageSets.{name_cmp, has_name};
ghost use Rattle.version_nodes.specs.Trees.{has_node};
ghost use Rattle.bug_record.specs.Tags.{has_tag, IsTagSet};
ghost use Rattle.bug_record.specs.Merges.{all_merged, joined_tags, joined_shared};
ghost use Rattle.bug_record.specs.declared.bug.Bug.{Bug};
ghost use Rattle.bug_record.specs.declared.bug.Shared.{Shared};
ghost use Rattle.bug_record.specs.declared.tag.Tag.{Tag};

/// Merged bugs have together what some of them has: a bug is merged with them where it is merged
/// with one of them, a tag, an affected package or a mark is theirs where one of them has it, and
/// so is a blocker that is merged with none of them.
pub fn joined_by_membership()
    ensures merged { (bugs : List Bug) (m : ℕ) → has (all_merged bugs) m ≡ list_any (λ b. has b.merged m) bugs }
    ensures tags { (bugs : List Bug) (t : Tag) → has_tag (joined_tags bugs) t ≡ list_any (λ b. has_tag b.shared.tags t) bugs }
    ensures affects { (first : Shared) (bugs : List Bug) (n : List ℕ) →
        has_name (joined_shared first bugs).affects n ≡ list_any (λ b. has_name b.shared.affects n) bugs }
    ensures found { (first : Shared) (bugs : List Bug) (n : Node) →
        has_node (joined_shared first bugs).found n ≡ list_any (λ b. has_node b.shared.found n) bugs }
    ensures fixed { (first : Shared) (bugs : List Bug) (n : Node) →
        has_node (joined_shared first bugs).fixed n ≡ list_any (λ b. has_node b.shared.fixed n) bugs }
    ensures blockers { (first : Shared) (bugs : List Bug) (n : ℕ) →
        has (joined_shared first bugs).blockers n
        ≡ (list_any (λ b. has b.shared.blockers n) bugs && not (list_any (λ b. has b.merged n) bugs)) }
{}

/// The bugs, the tags, the affected packages, the marks and the blockers of a joined set are sets:
/// each item stands in its place, once.
pub fn joined_are_sets()
    ensures merged { (bugs : List Bug) → IsAscending (all_merged bugs) }
    ensures tags { (bugs : List Bug) → IsTagSet (joined_tags bugs) }
    ensures affects { (first : Shared) (bugs : List Bug) → IsStrictlySortedBy name_cmp (joined_shared first bugs).affects }
    ensures found { (first : Shared) (bugs : List Bug) → IsStrictlySortedBy node_cmp (joined_shared first bugs).found }
    ensures fixed { (first : Shared) (bugs : List Bug) → IsStrictlySortedBy node_cmp (joined_shared first bugs).fixed }
    ensures blockers { (first : Shared) (bugs : List Bug) → IsAscending (joined_shared first bugs).blockers }
{}

/// A node is in the list with n where it is in the list or is n, and it is in the list without n
/// where it is in the list and is not n.
pub fn marks_by_membership()
    ensures with { (nodes : List Node) (n m : Node) → has_node (with_node nodes n) m ≡ (has_node nodes m || same_node m n) }
    ensures without { (nodes : List Node) (n m : Node)
        → has_node (without_node nodes n) m ≡ (has_node nodes m && not (same_node n m)) }
{}
