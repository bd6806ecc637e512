//! The known nodes with their parents.

ghost use Rattle.std.specs.Prelude.{◌≡◌, option_map, option_copied};
ghost use Rattle.sqlite.specs.Held.{state};
ghost use Rattle.version_nodes.specs.Nodes.{IsNode};
ghost use Rattle.base_words.specs.Texts.{IfGiven};
ghost use Rattle.table_content.specs.declared.edit.Edit.TheVariants.{PutLink, DropLink};
ghost use Rattle.table_schema.specs.Steps.{Plays, Serves};

use base_faults::StoreFault;
use sqlite::{Alter, Transaction, params};
use table_schema::written;
use version_nodes::Node;

// The source of a node that may be missing, for a parameter.
fn source_of(node: &Option<Node>) -> Option<&str>
    ensures value { option_copied result ≡ option_map (λ v. v.source) node.now }
    ensures valid { IfGiven IsNode node.now }
{
    match node {
        Some(node) => Some(node.source()),
        None => None,
    }
}

// The version of a node that may be missing, for a parameter.
fn version_of(node: &Option<Node>) -> Option<&str>
    ensures value { option_copied result ≡ option_map (λ v. v.version) node.now }
{
    match node {
        Some(node) => Some(node.version()),
        None => None,
    }
}

/// A node becomes known, with this parent or with none.
pub fn add_node<S: Alter>(
    tx: &mut Transaction<'_, S>,
    node: &Node,
    parent: &Option<Node>,
) -> Result<(), StoreFault>
    ensures same_reference { tx.new.conn.ghost_name ≡ tx.old.conn.ghost_name }
    ensures plays { Plays (PutLink node.now parent.now) (state S.Store tx.old.conn.now) (state S.Store tx.new.conn.now) result }
    ensures serves { Serves (state S.Store tx.old.conn.now) (state S.Store tx.new.conn.now) result }
{
    written(tx.execute(
        "INSERT INTO nodes VALUES (?1, ?2, ?3, ?4)",
        params![
            node.source(),
            node.version(),
            source_of(parent),
            version_of(parent)
        ],
    ))
}

/// A node is known no more.
pub fn clear_node<S: Alter>(tx: &mut Transaction<'_, S>, node: &Node) -> Result<(), StoreFault>
    ensures same_reference { tx.new.conn.ghost_name ≡ tx.old.conn.ghost_name }
    ensures plays { Plays (DropLink node.now) (state S.Store tx.old.conn.now) (state S.Store tx.new.conn.now) result }
    ensures serves { Serves (state S.Store tx.old.conn.now) (state S.Store tx.new.conn.now) result }
{
    written(tx.execute(
        "DELETE FROM nodes WHERE source = ?1 AND version = ?2",
        params![node.source(), node.version()],
    ))
}
