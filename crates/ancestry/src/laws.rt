//! Laws of the definitions that the contracts of this crate cite.
//! Each body is empty: the contract is the law.

ghost use Rattle.std.specs.Prelude.{◌≡◌, ◌↔◌, ℕ, List, Some};
ghost use Rattle.debver.specs.Names.{IsName};
ghost use Rattle.debver.specs.Cut.{IsVersion};
ghost use Rattle.version_nodes.specs.Nodes.{Node, node, node_of};
ghost use Rattle.version_nodes.specs.Trees.{Ancestry, IsForest, IsLine, line};

/// Two texts give a node exactly where the one is a package name and the other a version, and then
/// the node of these texts.
pub fn valid_nodes()
    ensures { (source version : List ℕ) (n : Node) →
        (node_of source version ≡ Some n) ↔ ((n ≡ node source version) × IsName source × IsVersion version) }
{}

/// In an ancestry each node has just one line.
pub fn one_line()
    ensures { (t : Ancestry) (n : Node) (nodes : List Node) → IsForest t →
        IsLine t n nodes ↔ (nodes ≡ line t n) }
{}
