//! Nodes: versions of source packages.

ghost use Rattle.std.specs.Prelude.{◌≡◌, ◌++◌, refl, true, is_some, is_none, Some, IfSome, IfOk};
ghost use Rattle.std.specs.List.{list_any, before_first, after_first};
ghost use Rattle.std.specs.Str.{bytes_eq};
ghost use Rattle.std.specs.Cmp.{po, partial_equiv_from_equiv};
ghost use Rattle.std.specs.Ordering.{as_partial_cmp};
ghost use Rattle.std.specs.Hash as fed;
ghost use Rattle.std.specs.Cmp.Rules.{hashing};
ghost use Rattle.std.proofs.Common.{rules};
ghost use Rattle.debver.specs.Names.{IsName, name_fault};
ghost use Rattle.debver.specs.Cut.{IsVersion};
ghost use Rattle.debver.specs.Faults.{text_fault};
ghost use Rattle.debver.specs.Versions.{total_cmp};
ghost use Rattle.version_nodes.specs.Nodes.{node, IsNode, IsRead, is_slash, node_of, node_of_text, node_at, node_text, same_node};
ghost use Rattle.version_nodes.specs.Nodes.{node_cmp};
ghost use Rattle.version_nodes.specs.Lowest.{lowest_version};
ghost use Rattle.version_nodes.specs.NodeLaws.{same_node_equiv, node_cmp_total, node_ties};

use crate::fault::NodeFault;
use debver::{Text, check, check_name, cut, total};
use std::alloc::{AllocError, Global};
use std::cmp::Ordering;
use std::fmt;
use std::hash::{Hash, Hasher};
use std::marker::Model;

/// A version of a source package.
/// Contracts see both texts.
#[derive(Debug, Drop)]
pub struct Node {
    source: Text,
    version: Text,
}

impl Model for Node {
    ghost use Rattle.version_nodes.specs.Nodes.{Node as Seen, node, IsNode};

    ghost Value = { Seen };

    ghost view = { λ n. node n.source n.version };

    ghost invariant = { λ n. IsNode (node n.source n.version) };
}

// The node of two texts, where the one is a package name and the other a version.
fn node_of(alloc: Global, source: &str, version: &str) -> Result<Node, NodeFault>
    ensures { IsRead (node_of source.now version.now) result }
{
    if check_name(source).is_err() || check(version).is_err() {
        return Err(NodeFault::BadNode);
    }
    match Node::of_name_and_version(alloc, source, version) {
        Ok(node) => Ok(node),
        Err(_) => Err(NodeFault::Memory),
    }
}

fn is_name(text: &Text) -> bool
    ensures exact { result ≡ is_none (name_fault text.now) }
    ensures name { result ≡ true → IsName text.now }
{
    check_name(text.as_str()).is_ok()
}

// Keeps a package name and a version, which it shares.
fn shared(source: &Text, version: &Text) -> Result<Node, AllocError>
    requires source { IsName source.now }
    requires version { IsVersion version.now }
    ensures { IfOk result (λ n. n ≡ node source.now version.now) }
{
    Ok(Node {
        source: source.copy()?,
        version: version.copy()?,
    })
}

// The version that comes first of all in the total order: no version is longer, and a tilde comes
// before the end of a text and before all other characters.
const LOWEST: &str =
    "~~~~~~~~~~~~~~~~~~~~~~~~~~~~~~~~~~~~~~~~~~~~~~~~~~~~~~~~~~~~~~~~~~~~~~~~~~~~~~~~~~~~~~~~~~~~~~~~~~~~";

/// What precedes the first slash and what follows it, where there is one.
pub fn at_first_slash(text: &str) -> Option<(&str, &str)>
    ensures slash { is_some result ≡ list_any is_slash text.now }
    ensures before { IfSome result (λ parts. parts.0.now ≡ before_first is_slash text.now) }
    ensures after { IfSome result (λ parts. parts.1.now ≡ after_first is_slash text.now) }
{
    text.split_once('/')
}

impl Node {
    /// Reads a node, which is written `source/version`: the name of a source package (Debian Policy
    /// 5.6.1), a slash and a version (5.6.12).
    /// The text is cut at its first slash.
    /// Errors: `BadNode` where there is no slash, or the parts are no such name and version, and
    /// `Memory`.
    /// How the two are written together is this project's own rule.
    pub fn read(alloc: Global, text: &str) -> Result<Node, NodeFault>
        ensures { IsRead (node_of_text text.now) result }
    {
        match at_first_slash(text) {
            Some((source, version)) => node_of(alloc, source, version),
            None => Err(NodeFault::BadNode),
        }
    }

    /// The node that a version word means for a package: a bare version is one of the package, and
    /// a word with a slash is read as a node of its own source.
    /// Errors: `BadNode` where the package is no package name (either way) or the word gives no
    /// node, and `Memory`.
    /// This project's own rule.
    pub fn at(alloc: Global, package: &str, word: &str) -> Result<Node, NodeFault>
        ensures { IsRead (node_at «package».now word.now) result }
    {
        let Some((own, version)) = at_first_slash(word) else {
            return node_of(alloc, package, word);
        };
        if check_name(package).is_err() {
            return Err(NodeFault::BadNode);
        }
        node_of(alloc, own, version)
    }

    /// The node of a package name and a version, which are not tested again.
    /// The error is that there was no memory.
    pub fn of_name_and_version(
        alloc: Global,
        source: &str,
        version: &str,
    ) -> Result<Node, AllocError>
        requires source { IsName source.now }
        requires version { IsVersion version.now }
        ensures { IfOk result (λ n. n ≡ node source.now version.now) }
    {
        Ok(Node {
            source: Text::of(alloc, source)?,
            version: Text::of(alloc, version)?,
        })
    }

    /// The node of two texts, which it shares, where the one is a package name; the other is a
    /// version, which is not tested again.
    /// It takes no memory itself.
    /// Errors: `BadNode` where the one is no package name, and `Memory` where no more copies of one
    /// can be counted.
    pub fn with_version(source: &Text, version: &Text) -> Result<Node, NodeFault>
        requires { IsVersion version.now }
        ensures { IsRead (node_of source.now version.now) result }
    {
        if !is_name(source) {
            return Err(NodeFault::BadNode);
        }
        match shared(source, version) {
            Ok(node) => Ok(node),
            Err(_) => Err(NodeFault::Memory),
        }
    }

    /// The node of a package that comes before its other nodes, whose version is 100 tildes.
    /// Errors: `BadNode` where the text is no package name, and `Memory`.
    pub fn lowest(alloc: Global, source: &str) -> Result<Node, NodeFault>
        ensures { IsRead (node_of source.now lowest_version) result }
    {
        node_of(alloc, source, LOWEST)
    }

    /// The name of the source package.
    pub fn source(&self) -> &str
        ensures value { result.now ≡ self.now.source }
        ensures valid { IsNode self.now }
    {
        self.source.as_str()
    }

    /// The name of the source package, as a text that shares the memory of this one.
    /// It takes no memory itself, and answers out of memory only where no more copies of the text
    /// can be counted.
    pub fn copy_source(&self) -> Result<Text, AllocError>
        ensures { IfOk result (λ t. t ≡ self.now.source) }
    {
        self.source.copy()
    }

    /// The version.
    pub fn version(&self) -> &str
        ensures value { result.now ≡ self.now.version }
        ensures valid { IsNode self.now }
    {
        self.version.as_str()
    }

    /// A second such node, which shares the texts of this one.
    /// It takes no memory itself, and answers out of memory only where no more copies of a text can
    /// be counted.
    pub fn copy(&self) -> Result<Node, AllocError>
        ensures value { IfOk result (λ n. n ≡ self.now) }
        ensures valid { IsNode self.now }
    {
        Ok(Node {
            source: self.source.copy()?,
            version: self.version.copy()?,
        })
    }

    /// Whether this is the source package of the node.
    /// It takes no memory.
    pub fn is_of(&self, source: &str) -> bool
        ensures { result ≡ bytes_eq self.now.source source.now }
    {
        self.source() == source
    }

    // The total order of the versions alone.
    fn cmp_version(&self, other: &Node) -> Ordering
        ensures { result ≡ total_cmp self.now.version other.now.version }
    {
        total(&cut(self.version()), &cut(other.version()))
    }
}

/// A node is written `source/version`.
/// This project's own rule.
impl fmt::Display for Node {
    ghost output = { λ n. Some (node_text n) };

    fn fmt<W: fmt::Write>(&self, f: &mut fmt::Formatter<W>) -> fmt::Result {
        let source = self.source();
        let version = self.version();
        write!(f, "{source}/{version}")
    }
}

/// Two nodes are equal where both texts are equal.
impl PartialEq for Node {
    ghost eq = { same_node };

    ghost laws = { partial_equiv_from_equiv same_node_equiv };

    fn eq(&self, other: &Node) -> bool {
        self.source == other.source && self.version == other.version
    }
}

impl Eq for Node {
    ghost laws = { same_node_equiv };
}

/// A node is hashed by both texts.
impl Hash for Node {
    ghost hash_input = { λ n. fed.str n.source ++ fed.str n.version };

    ghost respects_eq = { Prim.search (hashing, rules) };

    fn hash<H: Hasher>(&self, state: &mut H) {
        self.source().hash(state);
        self.version().hash(state);
    }
}

impl PartialOrd for Node {
    ghost partial_cmp = { as_partial_cmp node_cmp };

    ghost laws = { po node_cmp_total node_ties };

    fn partial_cmp(&self, other: &Node) -> Option<Ordering> {
        Some(self.cmp(other))
    }
}

/// Nodes are ordered by the bytes of the source, then by the total order of versions.
/// This project's own rule.
impl Ord for Node {
    ghost cmp = { node_cmp };

    ghost total = { node_cmp_total };

    ghost matches_partial_cmp = { λ a b. refl };

    ghost matches_eq = { node_ties };

    fn cmp(&self, other: &Node) -> Ordering {
        let by_source = self.source().as_bytes().cmp(other.source().as_bytes());
        if by_source.is_ne() {
            return by_source;
        }
        self.cmp_version(other)
    }
}
