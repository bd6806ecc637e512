//! Laws of the definitions that the contracts of this crate cite.
//! Each body is empty: the contract is the law.

ghost use Rattle.std.specs.Prelude.{◌≡◌, ◌++◌, ◌||◌, true, false, List, Option, Some, if◌then◌else◌};
ghost use Rattle.std.specs.Option.{option_or, option_and_then};
ghost use Rattle.version_nodes.specs.Nodes.{Node};
ghost use Rattle.version_nodes.specs.Trees.{Ancestry, IsForest, has_node, knows, known_at, parent_of, line};
ghost use Rattle.version_nodes.specs.Branches.{Extends};
ghost use Rattle.version_marks.specs.Nearest.{nearest_on, nearest_of, own_mark, meets};
ghost use Rattle.version_marks.specs.declared.near.Near.{Near};

/// Where a line goes on, what was its nearest mark is its nearest mark still.
pub fn nearest_of_longer_lines()
    ensures { (found fixed ns more : List Node) →
        nearest_on found fixed (ns ++ more) ≡ option_or (nearest_on found fixed ns) (nearest_on found fixed more) }
{}

/// A known node that is marked sees its own mark, and another known one what its parent sees.
pub fn nearest_by_parents()
    ensures { (t : Ancestry) (found fixed : List Node) (v : Node) → IsForest t → knows t v ≡ true →
        nearest_of t found fixed v ≡ (if has_node found v || has_node fixed v then Some (own_mark found v)
        else option_and_then (nearest_of t found fixed) (parent_of t v)) }
{}

/// After a branch each known node sees the mark that it saw before, where it saw one.
pub fn nearest_after_branches()
    ensures { (t u : Ancestry) (nodes found fixed : List Node) (v : Node) (near : Near) → IsForest t → IsForest u →
        Extends t nodes u → nearest_of t found fixed v ≡ Some near → nearest_of u found fixed v ≡ Some near }
{}

/// A node whose line has no changed node sees what it saw before.
pub fn nearest_elsewhere()
    ensures { (t u : Ancestry) (changed found fixed : List Node) (v : Node) → IsForest t → IsForest u →
        ((w : Node) → has_node changed w ≡ false → known_at u w ≡ known_at t w) → meets changed (line u v) ≡ false →
        nearest_of u found fixed v ≡ nearest_of t found fixed v }
{}
