//! What a request asks of a desk.

/// A request that was read.
#[derive(Drop)]
pub enum Request {
    /// A report of a bug.
    Report(ReportRequest),
    /// A control message.
    Message(MessageRequest),
    /// A control message that has an id, and acts once.
    Once(OnceRequest),
    /// A branch, by the words of its nodes.
    Branch(Vec<String>),
    /// The page of the bug of this number.
    Page(u64),
    /// The list of a package's bugs at a version.
    ListOf(ListRequest),
}

/// The members of a report.
#[derive(Drop)]
pub struct ReportRequest {
    pub from: String,
    pub package: String,
    pub severity: String,
    pub title: String,
    pub version: Option<String>,
}

/// The members of a control message.
#[derive(Drop)]
pub struct MessageRequest {
    pub from: String,
    pub message: String,
}

/// A control message with its id.
#[derive(Drop)]
pub struct OnceRequest {
    /// 1 to 100 visible ASCII characters.
    pub id: String,
    pub message: MessageRequest,
}

/// The words of a list.
#[derive(Drop)]
pub struct ListRequest {
    pub package: String,
    pub version: String,
}
