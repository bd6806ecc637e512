//! The edits of tables that a change is made of.

use bug_record::{Member, Outcome, Severity, Tags};
use debver::Text;
use version_marks::Near;
use version_nodes::{MarkKind, Node};

/// The fields that a set of merged bugs has in its own row.
/// Its marks, blockers, affected packages and members stand in tables of their own.
#[derive(Drop)]
pub struct SetFields {
    pub package: Text,
    pub severity: Severity,
    pub closed: bool,
    /// Where the bugs were forwarded to.
    pub forwarded: Option<Text>,
    /// Who works on them.
    pub owner: Option<Text>,
    pub tags: Tags,
    pub archived: bool,
}

/// The sender and the text of a message that has an id.
/// Its outcomes stand in tables of their own.
#[derive(Drop)]
pub struct SentMessage {
    pub from: Text,
    pub message: Text,
}

/// What came of a line of a message: its place among the outcomes of the message, from 0, and the
/// outcome.
/// The numbers of an accepted line stand in a table of their own.
#[derive(Drop)]
pub struct ToldOutcome {
    pub place: u64,
    pub outcome: Outcome,
}

/// One edit of the tables: what goes, or what comes.
/// A set is named by its key, which is the number of one of its bugs, and a message by its id.
#[derive(Drop)]
pub enum Edit {
    /// The set of this key is no set any more.
    DropFields {
        key: u64,
    },
    /// The set of this key gets these fields.
    PutFields {
        key: u64,
        fields: SetFields,
    },
    /// The bug of this number is in no set any more.
    DropMember {
        number: u64,
    },
    /// This bug comes into the set of this key.
    PutMember {
        key: u64,
        member: Member,
    },
    /// The set of this key has no marks any more.
    DropMarks {
        key: u64,
    },
    /// The set of this key is marked at a node.
    PutMark {
        key: u64,
        kind: MarkKind,
        node: Node,
    },
    /// The set of this key has no blockers any more.
    DropBlockers {
        key: u64,
    },
    /// The set of this key waits on this bug.
    PutBlocker {
        key: u64,
        blocker: u64,
    },
    /// The set of this key affects no package any more.
    DropAffects {
        key: u64,
    },
    /// The set of this key affects this package.
    PutAffects {
        key: u64,
        package: Text,
    },
    /// The set of this key has no nearest marks any more.
    DropNear {
        key: u64,
    },
    /// The set of this key has no nearest mark any more, as seen from a node.
    DropNearAt {
        key: u64,
        node: Node,
    },
    /// The nearest mark of the set of this key, as seen from a node.
    PutNear {
        key: u64,
        node: Node,
        near: Near,
    },
    /// The node is not known any more.
    DropLink {
        node: Node,
    },
    /// The node is known, with this parent or none.
    PutLink {
        node: Node,
        parent: Option<Node>,
    },
    /// The message of this id is known, with its sender and its text.
    PutMessage {
        id: Text,
        from: Text,
        message: Text,
    },
    /// An outcome is kept of the message of this id, at this place, without the numbers of an
    /// accepted line.
    PutOutcome {
        id: Text,
        place: u64,
        outcome: Outcome,
    },
    /// The accepted line at this place of the message of this id has one more number.
    PutOutcomeNumber {
        id: Text,
        place: u64,
        number: u64,
    },
}
