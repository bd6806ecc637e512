//! Versions as commands name them, and the marks that they make.

ghost use Rattle.std.specs.Prelude.{◌≡◌, unwrap_or, IfOk, IfErr, OnOk};
ghost use Rattle.std.specs.List.{list_any};
ghost use Rattle.std.specs.Ordering.{is_lt};
ghost use Rattle.debver.specs.Versions.{text_cmp};
ghost use Rattle.bug_record.specs.Marks.{is_below_some};
ghost use Rattle.bug_record.specs.Commands.{node_meant, IsGoodVersion};
ghost use Rattle.bug_record.specs.Steps.{marked_found, marked_fixed, found_at};
ghost use Rattle.bug_fields.specs.Fields.{IsVersionFault};

use bug_record::{PlanFault, Refusal, Shared, VersionArg, add_node, remove_node};
use debver::{Text, cut, order};
use std::alloc::AllocError;
use version_nodes::{Node, NodeFault};

// The source package that a version means.
fn source_meant<'a>(package: &'a Text, version: &'a VersionArg) -> &'a Text
    ensures { result.now ≡ unwrap_or version.now.source «package».now }
{
    match &version.source {
        Some(source) => source,
        None => package,
    }
}

/// The node that a version means for a package, which shares their texts.
/// A package that is no package name, as no bug of a desk has, is refused.
pub(crate) fn node_meant(package: &Text, version: &VersionArg) -> Result<Node, PlanFault>
    requires { IsGoodVersion version.now }
    ensures node { IfOk result (λ node. node ≡ node_meant «package».now version.now) }
    ensures fault { IfErr result (IsVersionFault «package».now) }
{
    let source = source_meant(package, version);
    match Node::with_version(source, &version.version) {
        Ok(node) => Ok(node),
        Err(NodeFault::BadNode) => Err(PlanFault::Refused(Refusal::BadPackage)),
        Err(NodeFault::Memory) => Err(PlanFault::Memory),
    }
}

// Whether the version of the one is lower than that of the other.
fn is_below(node: &Node, other: &Node) -> bool
    ensures { result ≡ is_lt (text_cmp node.now.version other.now.version) }
{
    order(&cut(node.version()), &cut(other.version())).is_lt()
}

fn is_below_some(node: &Node, nodes: &[Node]) -> bool
    ensures { result ≡ is_below_some node.now nodes.now }
{
    nodes.iter().any(|other| is_below(node, other))
}

/// Marks the node as found, and no longer as fixed.
pub(crate) fn mark_found(shared: &mut Shared, node: Node) -> Result<(), AllocError>
    ensures { OnOk result (shared.new ≡ marked_found node shared.old) }
{
    remove_node(&mut shared.fixed, &node);
    add_node(&mut shared.found, node)
}

/// Marks the node as fixed, and no longer as found.
pub(crate) fn mark_fixed(shared: &mut Shared, node: Node) -> Result<(), AllocError>
    ensures { OnOk result (shared.new ≡ marked_fixed node shared.old) }
{
    remove_node(&mut shared.found, &node);
    add_node(&mut shared.fixed, node)
}

/// Marks the node as found.
/// A closed bug stays closed where a higher version is marked as fixed.
pub(crate) fn mark_found_at(shared: &mut Shared, node: Node) -> Result<(), AllocError>
    ensures { OnOk result (shared.new ≡ found_at node shared.old) }
{
    shared.closed = shared.closed && is_below_some(&node, shared.fixed.as_slice());
    mark_found(shared, node)
}
