//! The first head at which the bugs of a set are still found.

ghost use Rattle.std.specs.Prelude.{◌≡◌, Some, IfOk, IfErr};
ghost use Rattle.std.specs.List.{find};
ghost use Rattle.sqlite.specs.Held.{state};
ghost use Rattle.version_nodes.specs.Statuses.{status};
ghost use Rattle.version_nodes.specs.Trees.{heads};
ghost use Rattle.bug_record.specs.Heads.{is_found};
ghost use Rattle.base_faults.specs.declared.store_fault.StoreFault.TheVariants.{Memory};
ghost use Rattle.store_keys.specs.Keys.{key_of};
ghost use Rattle.table_content.specs.View.{desk_in};
ghost use Rattle.table_schema.specs.Steps.{Reads, Serves};
ghost use Rattle.store_contract.specs.Store.{IsOpenHead};
ghost use Rattle.table_reads.specs.Asked.{IsSetIn, IsAskedFor, ReadsWhere};
ghost use Rattle.table_reads.specs.Found.{is_found_at};

use crate::found::read_found;
use crate::keys::{key_asked, small_key};
use base_faults::StoreFault;
use bug_record::SetImage;
use sqlite::{Alter, Transaction};
use store_keys::key_of;
use table_sets::read_key;
use version_marks::Family;
use version_nodes::Node;

// The key of the image's set, as a statement takes it.
// `Foreign` where its first bug is in no set, or the key is no u32.
fn read_set_key<S: Alter>(tx: &mut Transaction<'_, S>, image: &SetImage) -> Result<u32, StoreFault>
    ensures same_reference { tx.new.conn.ghost_name ≡ tx.old.conn.ghost_name }
    ensures reads { ReadsWhere (IsSetIn image.now) (λ c key. c.key (key_of image.now) ≡ Some key)
        (state S.Store tx.old.conn.now) (state S.Store tx.new.conn.now) result }
    ensures serves { Serves (state S.Store tx.old.conn.now) (state S.Store tx.new.conn.now) result }
{
    match read_key(tx, key_asked(key_of(image)))? {
        Some(key) => small_key(key),
        None => Err(StoreFault::Foreign),
    }
}

// A node that was found.
fn some_node(node: &Node) -> Result<Option<Node>, StoreFault>
    ensures value { IfOk result (λ found. found ≡ Some node.now) }
    ensures memory { IfErr result (λ fault. fault ≡ Memory) }
{
    Ok(Some(node.copy()?))
}

// The first of the nodes at which the bugs of the key's set, which has this image, are found.
fn find_open<S: Alter>(
    tx: &mut Transaction<'_, S>,
    key: u32,
    image: &SetImage,
    nodes: &[Node],
) -> Result<Option<Node>, StoreFault>
    ensures same_reference { tx.new.conn.ghost_name ≡ tx.old.conn.ghost_name }
    ensures reads { Reads (λ c node. node ≡ find (λ v. is_found_at c key v image.now.shared) nodes.now)
        (state S.Store tx.old.conn.now) (state S.Store tx.new.conn.now) result }
{
    for node in nodes {
        if read_found(tx, key, image, node)? {
            return some_node(node);
        }
    }
    Ok(None)
}

// The first of the nodes at which the bugs of the image are found.
fn read_first_open<S: Alter>(
    tx: &mut Transaction<'_, S>,
    image: &SetImage,
    nodes: &[Node],
) -> Result<Option<Node>, StoreFault>
    ensures same_reference { tx.new.conn.ghost_name ≡ tx.old.conn.ghost_name }
    ensures reads { ReadsWhere (IsSetIn image.now) (λ c node. node
        ≡ find (λ v. is_found (status c.nodes image.now.shared.found image.now.shared.fixed image.now.shared.closed v)) nodes.now)
        (state S.Store tx.old.conn.now) (state S.Store tx.new.conn.now) result }
    ensures serves { Serves (state S.Store tx.old.conn.now) (state S.Store tx.new.conn.now) result }
{
    let key = read_set_key(tx, image)?;
    find_open(tx, key, image, nodes)
}

// The heads of the package of the image's bugs, in node order.
fn heads_of(family: &Family, image: &SetImage) -> Result<Vec<Node>, StoreFault>
    ensures value { IfOk result (λ nodes. nodes.items ≡ heads family.now image.now.shared.«package») }
    ensures memory { IfErr result (λ fault. fault ≡ Memory) }
{
    let package = image.shared.fields().package.as_str();
    Ok(family.tree().heads(package)?)
}

/// The first head of the package of an image's bugs, in node order, at which they are still found,
/// where the image is a set of the desk that the tables show, and the tree is that desk's.
/// Where it is not, the answer may be wrong, or `Foreign`; `Memory` where there is none for it.
pub fn read_open_head<S: Alter>(
    tx: &mut Transaction<'_, S>,
    family: &Family,
    image: &SetImage,
) -> Result<Option<Node>, StoreFault>
    ensures same_reference { tx.new.conn.ghost_name ≡ tx.old.conn.ghost_name }
    ensures acts { ReadsWhere (IsAskedFor family.now image.now) (λ c head. IsOpenHead (desk_in c) image.now head)
        (state S.Store tx.old.conn.now) (state S.Store tx.new.conn.now) result }
    ensures serves { Serves (state S.Store tx.old.conn.now) (state S.Store tx.new.conn.now) result }
{
    let nodes = heads_of(family, image)?;
    read_first_open(tx, image, nodes.as_slice())
}
