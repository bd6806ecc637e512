//! The kinds of calls.

/// What a tree is asked of a node.
#[derive(Clone, Copy)]
pub(crate) enum NodeKind {
    /// Whether it is known.
    Knows,
    /// Its line.
    Line,
}

/// What is called; the comment says what the text after the word is.
#[derive(Clone, Copy)]
pub(crate) enum Kind {
    /// `version`: the parts of a version, or the fault of the text.
    Version,
    /// `order`: versions, in their total order, and whether neighbours are alike.
    Order,
    /// `name`: whether the text is a package name, or its fault.
    Name,
    /// `node`: the node that the text is.
    Node,
    /// `at`: the node that a word, after a space, means for a package.
    At,
    /// `nodes`: nodes, in their order, each once.
    Nodes,
    /// `tree`: begins a tree that knows nothing; the calls after it are about that tree.
    Tree,
    /// `branch`: takes a branch of these nodes.
    Branch,
    /// `knows`: whether the node is known.
    Knows,
    /// `line`: the line of the node.
    Line,
    /// `heads`: the heads of the package.
    Heads,
    /// `status`: `NODE STATE, found NODES, fixed NODES`, where the state is `open` or `closed`.
    Status,
    /// `text`: whether it is a text of 1 to 200 bytes.
    Text,
    /// `number`: the number of a number word.
    Number,
    /// `read`: a line of a message, as it is spelled canonically, or its refusal.
    Read,
    /// `tags`: the number of these tags, and the tags of that number.
    Tags,
    /// `tagnumber`: the tags of a number.
    TagNumber,
    /// `severity`: the severity of a number.
    Severity,
    /// `nearest`: `NODE, found NODES, fixed NODES`: the nearest mark as seen from the node.
    Nearest,
    /// `affected`: the nodes whose line has one of these.
    Affected,
    /// `edits`: `NUMBERS, found NODES, fixed NODES, waits NUMBERS, had NODES, had fixed NODES`:
    /// what is cleared and what is put for the set of these bugs.
    Edits,
}

impl Kind {
    // The kind of this word, where such calls are about the tree.
    fn read_of_tree(word: &str) -> Option<Kind> {
        match word {
            "tree" => Some(Kind::Tree),
            "branch" => Some(Kind::Branch),
            "knows" => Some(Kind::Knows),
            "line" => Some(Kind::Line),
            "heads" => Some(Kind::Heads),
            "status" => Some(Kind::Status),
            "nearest" => Some(Kind::Nearest),
            "affected" => Some(Kind::Affected),
            "edits" => Some(Kind::Edits),
            _ => None,
        }
    }

    // The kind of this word, where such calls are about texts, numbers and lines of messages.
    fn read_of_message(word: &str) -> Option<Kind> {
        match word {
            "text" => Some(Kind::Text),
            "number" => Some(Kind::Number),
            "read" => Some(Kind::Read),
            "tags" => Some(Kind::Tags),
            "tagnumber" => Some(Kind::TagNumber),
            "severity" => Some(Kind::Severity),
            _ => Kind::read_of_tree(word),
        }
    }

    /// The kind of this word.
    pub fn read(word: &str) -> Option<Kind> {
        match word {
            "version" => Some(Kind::Version),
            "order" => Some(Kind::Order),
            "name" => Some(Kind::Name),
            "node" => Some(Kind::Node),
            "at" => Some(Kind::At),
            "nodes" => Some(Kind::Nodes),
            _ => Kind::read_of_message(word),
        }
    }
}
