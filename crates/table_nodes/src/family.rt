//! The tree of the known nodes.

ghost use Rattle.std.specs.Prelude.{◌≡◌, ◌+◌, ◌<◌, true, Option, Some, map, IfOk, IfErr};
ghost use Rattle.std.specs.List.{AllByRecursion};
ghost use Rattle.sqlite.specs.Held.{state};
ghost use Rattle.sqlite.specs.Order.{column};
ghost use Rattle.sqlite.specs.declared.types.Value.TheVariants.{Text as TextCell};
ghost use Rattle.version_nodes.specs.Nodes.{Node as SeenNode};
ghost use Rattle.version_nodes.specs.Trees.{Ancestry, IsForest};
ghost use Rattle.base_faults.specs.declared.store_fault.StoreFault.TheVariants.{Memory};
ghost use Rattle.table_schema.specs.Steps.{Acts, Reads, Serves};
ghost use Rattle.table_nodes.specs.Links.{link_row, IsLink, AreLinksOf};

use crate::outcomes::maybe_node_at;
use ancestry::Tree;
use base_faults::StoreFault;
use sqlite::types::ValueRef;
use sqlite::{Alter, Row, Transaction};
use std::alloc::Global;
use table_schema::{node_at, told};
use version_marks::Family;
use version_nodes::Node;

// The rows of all nodes, in any order.
fn link_rows<S: Alter>(tx: &mut Transaction<'_, S>) -> Result<Vec<Row>, StoreFault>
    ensures same_reference { tx.new.conn.ghost_name ≡ tx.old.conn.ghost_name }
    ensures reads { Reads (λ c rows. AreLinksOf c.nodes rows.items) (state S.Store tx.old.conn.now) (state S.Store tx.new.conn.now) result }
    ensures serves { Serves (state S.Store tx.old.conn.now) (state S.Store tx.new.conn.now) result }
{
    told(tx.query_all(
        "SELECT source, version, parent_source, parent_version FROM nodes",
        &[],
    ))
}

// Whether a cell, counted from 0, has this text.
fn has_text(row: &Row, at: usize, text: &str) -> bool
    ensures { result ≡ true → column row.now at ≡ TextCell text.now }
{
    match row.get_ref(at) {
        Ok(ValueRef::Text(bytes)) => bytes == text.as_bytes(),
        _ => false,
    }
}

// Whether a node is the one whose source stands in a cell, and its version in the next one.
fn is_node_at(row: &Row, at: usize, node: &Node) -> bool
    requires { at < 100 }
    ensures source { result ≡ true → column row.now at ≡ TextCell node.now.source }
    ensures version { result ≡ true → column row.now (at + 1) ≡ TextCell node.now.version }
{
    if !has_text(row, at, node.source()) {
        return false;
    }
    has_text(row, at + 1, node.version())
}

// A second such node.
fn copy_of(node: &Node) -> Result<Node, StoreFault>
    ensures value { IfOk result (λ n. n ≡ node.now) }
    ensures memory { IfErr result (λ fault. fault ≡ Memory) }
{
    Ok(node.copy()?)
}

// The same, as one that is there.
fn some_copy_of(node: &Node) -> Result<Option<Node>, StoreFault>
    ensures value { IfOk result (λ n. n ≡ Some node.now) }
    ensures memory { IfErr result (λ fault. fault ≡ Memory) }
{
    Ok(Some(copy_of(node)?))
}

// The node in a row, which shares the texts of this one, where it is the same.
fn node_in(alloc: Global, row: &Row, like: Option<&Node>) -> Result<Node, StoreFault>
    ensures value { (l : SeenNode × Option SeenNode) → IsLink l → row.now ≡ link_row l → IfOk result (λ node. node ≡ l.0) }
    ensures memory { (l : SeenNode × Option SeenNode) → IsLink l → row.now ≡ link_row l → IfErr result (λ fault. fault ≡ Memory) }
{
    let Some(like) = like else {
        return node_at(alloc, row, 0);
    };
    if is_node_at(row, 0, like) {
        return copy_of(like);
    }
    node_at(alloc, row, 0)
}

// The parent in a row, if there is one; it shares texts so, too.
fn parent_in(alloc: Global, row: &Row, like: Option<&Node>) -> Result<Option<Node>, StoreFault>
    ensures value { (l : SeenNode × Option SeenNode) → IsLink l → row.now ≡ link_row l → IfOk result (λ parent. parent ≡ l.1) }
    ensures memory { (l : SeenNode × Option SeenNode) → IsLink l → row.now ≡ link_row l → IfErr result (λ fault. fault ≡ Memory) }
{
    let Some(like) = like else {
        return maybe_node_at(alloc, row, 2);
    };
    if is_node_at(row, 2, like) {
        return some_copy_of(like);
    }
    maybe_node_at(alloc, row, 2)
}

// The node of a link.
fn node_of(link: Option<&(Node, Option<Node>)>) -> Option<&Node> {
    match link {
        Some(link) => Some(&link.0),
        None => None,
    }
}

// The parent of a link.
fn parent_of(link: Option<&(Node, Option<Node>)>) -> Option<&Node> {
    match link {
        Some((_, Some(parent))) => Some(parent),
        _ => None,
    }
}

// The link of a row: a node with its parent, or with none.
// Rows come as their branches did: often the parent of the row before is this node, or the node of
// that row this parent.
fn link_in(
    alloc: Global,
    row: &Row,
    before: Option<&(Node, Option<Node>)>,
) -> Result<(Node, Option<Node>), StoreFault>
    ensures value { (l : SeenNode × Option SeenNode) → IsLink l → row.now ≡ link_row l → IfOk result (λ link. link ≡ l) }
    ensures memory { (l : SeenNode × Option SeenNode) → IsLink l → row.now ≡ link_row l → IfErr result (λ fault. fault ≡ Memory) }
{
    let node = node_in(alloc, row, parent_of(before))?;
    let parent = parent_in(alloc, row, node_of(before))?;
    Ok((node, parent))
}

// The links of rows, in their order.
fn links_of(alloc: Global, rows: &[Row]) -> Result<Vec<(Node, Option<Node>)>, StoreFault>
    ensures value { (ls : Ancestry) → AllByRecursion IsLink ls → rows.now ≡ map link_row ls → IfOk result (λ links. links.items ≡ ls) }
    ensures memory { (ls : Ancestry) → AllByRecursion IsLink ls → rows.now ≡ map link_row ls → IfErr result (λ fault. fault ≡ Memory) }
{
    let mut links = Vec::new(alloc);
    for row in rows {
        let link = link_in(alloc, row, links.last())?;
        match links.push(link) {
            Ok(()) => {}
            Err(_) => return Err(StoreFault::Memory),
        }
    }
    Ok(links)
}

// The tree of the nodes of rows.
fn tree_of(alloc: Global, rows: &[Row]) -> Result<Tree, StoreFault>
    ensures value { (t : Ancestry) → IsForest t → AreLinksOf t rows.now → IfOk result (λ tree. tree ≡ t) }
    ensures memory { (t : Ancestry) → IsForest t → AreLinksOf t rows.now → IfErr result (λ fault. fault ≡ Memory) }
{
    let links = links_of(alloc, rows)?;
    match Tree::of_links(alloc, links) {
        Ok(Some(tree)) => Ok(tree),
        Ok(None) => Err(StoreFault::Foreign),
        Err(_) => Err(StoreFault::Memory),
    }
}

// The same, from which one can go to children.
fn family_of(alloc: Global, rows: &[Row]) -> Result<Family, StoreFault>
    ensures value { (t : Ancestry) → IsForest t → AreLinksOf t rows.now → IfOk result (λ family. family ≡ t) }
    ensures memory { (t : Ancestry) → IsForest t → AreLinksOf t rows.now → IfErr result (λ fault. fault ≡ Memory) }
{
    let tree = tree_of(alloc, rows)?;
    match Family::of_tree(alloc, tree) {
        Ok(family) => Ok(family),
        Err(_) => Err(StoreFault::Memory),
    }
}

/// The tree of the known nodes, where they are a forest.
/// `Foreign` where a parent is not known, or a node is in the line of its parent; `Memory` where
/// there is none for the tree.
pub fn read_family<S: Alter>(
    alloc: Global,
    tx: &mut Transaction<'_, S>,
) -> Result<Family, StoreFault>
    ensures same_reference { tx.new.conn.ghost_name ≡ tx.old.conn.ghost_name }
    ensures acts { Acts (state S.Store tx.old.conn.now) (state S.Store tx.new.conn.now) result (λ c. IsForest c.nodes)
        (λ c d family. (d ≡ c) × (IsForest c.nodes → family ≡ c.nodes)) }
    ensures serves { Serves (state S.Store tx.old.conn.now) (state S.Store tx.new.conn.now) result }
{
    let rows = link_rows(tx)?;
    family_of(alloc, rows.as_slice())
}
