//! Laws of the definitions that the contracts of this crate cite.
//! Each body is empty: the contract is the law.

ghost use Rattle.std.specs.Prelude.{◌≡◌, ◌≤◌, ◌&&◌, ◌++◌, ℕ, true, false, List, [], ◌∷◌, Some, All};
ghost use Rattle.std.specs.Option.{option_or};
ghost use Rattle.std.specs.Ordering.{nat_cmp};
ghost use Rattle.std.specs.BTreeMap.{is_at};
ghost use Rattle.std.specs.Map.{keys_of, lookup};
ghost use Rattle.std.specs.List.Sorted.{IsStrictlySortedBy};
ghost use Rattle.base_words.specs.declared.named.TheConstants.{LARGEST_NUMBER};
ghost use Rattle.version_nodes.specs.Nodes.{Node};
ghost use Rattle.version_nodes.specs.Trees.{Ancestry, IsForest, has_node, knows, line};
ghost use Rattle.version_nodes.specs.Branches.{Extends};
ghost use Rattle.bug_record.specs.Sets.{has};
ghost use Rattle.version_marks.specs.Nearest.{nearest_on, meets};
ghost use Rattle.version_marks.specs.declared.near.Near.{Near};
ghost use Rattle.table_content.specs.Content.{Content};
ghost use Rattle.table_content.specs.Kept.{IsKeptContent};
ghost use Rattle.table_content.specs.Branches.{ChangesNodes, AreMissing};
ghost use Rattle.table_content.specs.declared.branches.SetNear.{SetNear};
ghost use Rattle.table_nodes.specs.Grown.{unknown_of, roots_of, changed_of, IsGrown};
ghost use Rattle.table_nodes.specs.Missing.{AreRowsOn, new_rows};
ghost use Rattle.table_nodes.specs.FirstMarks.{mark_at};

/// After a branch the ancestry has grown by the changed nodes.
pub fn branches_grow()
    ensures { (t u : Ancestry) (nodes : List Node) → IsForest t → IsForest u → Extends t nodes u →
        All (λ n. knows u n ≡ true) nodes → IsGrown t u (changed_of u (unknown_of t nodes) (roots_of t nodes)) }
{}

/// An ancestry that has grown out of that of a content changes the content's nodes.
pub fn grown_nodes_change()
    ensures { (c : Content) (u : Ancestry) (changed : List Node) → IsGrown c.nodes u changed → ChangesNodes c u changed }
{}

/// The rows of the nodes whose line has a changed node are all those that are missing.
pub fn rows_are_missing()
    ensures { (c : Content) (u : Ancestry) (changed nodes : List Node) (rows : List SetNear) → IsKeptContent c →
        IsGrown c.nodes u changed → ((v : Node) → has_node nodes v ≡ (knows u v && meets changed (line u v))) →
        AreRowsOn c u nodes rows → AreMissing c u rows }
{}

/// Where a line goes on by a node, a set without a mark so far sees the one at that node.
pub fn first_marks_go_on()
    ensures { (found fixed ns : List Node) (v : Node) (found_keys fixed_keys : List ℕ) (k : ℕ) →
        has found_keys k ≡ has_node found v → has fixed_keys k ≡ has_node fixed v →
        nearest_on found fixed (ns ++ v ∷ []) ≡ option_or (nearest_on found fixed ns) (mark_at v found_keys fixed_keys k) }
{}

/// A set with a mark has the number of a bug as its key.
pub fn marked_sets_are_there()
    ensures { (c : Content) (k : ℕ) (ns : List Node) (near : Near) → IsKeptContent c →
        nearest_on (c.found k) (c.fixed k) ns ≡ Some near → k ≤ LARGEST_NUMBER }
{}

/// The rows of one more known node are those of the first marks of its line, behind the others.
pub fn rows_go_on()
    ensures { (c : Content) (u : Ancestry) (nodes : List Node) (rows : List SetNear) (v : Node) (first : List (ℕ × Near)) →
        IsKeptContent c → knows u v ≡ true → has_node nodes v ≡ false → IsStrictlySortedBy nat_cmp (keys_of first) →
        ((k : ℕ) → lookup (is_at (nat_cmp k)) first ≡ nearest_on (c.found k) (c.fixed k) (line u v)) →
        AreRowsOn c u nodes rows → AreRowsOn c u (nodes ++ v ∷ []) (rows ++ new_rows c v first) }
{}
