//! The nodes of a branch in a script.

ghost use Rattle.std.specs.Prelude.{◌≡◌, Some, None};
ghost use Rattle.base_words.specs.Words.{words};
ghost use Rattle.message_directives.specs.Branches.{nodes_of};
ghost use Rattle.message_directives.specs.BranchWords.{AreRead};

use base_words::next_word;
use message_directives::add_node;
use std::alloc::Global;
use version_nodes::{Node, NodeFault};

/// The nodes of the words of a text.
/// `BadNode` where a word is no node, `Memory` where there was none.
pub(crate) fn read_nodes(alloc: Global, text: &str) -> Result<Vec<Node>, NodeFault>
    ensures { AreRead (nodes_of (words text.now)) result }
{
    let mut nodes = Vec::new(alloc);
    let mut rest = text;
    loop {
        let (word, more) = next_word(rest);
        if word.is_empty() {
            return Ok(nodes);
        }
        add_node(alloc, &mut nodes, word)?;
        rest = more;
    }
}
