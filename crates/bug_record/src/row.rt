//! The rows of lists.

use crate::severity::Severity;
use debver::Text;

/// A bug in a list.
#[derive(Debug, PartialEq, Eq, Drop)]
pub struct ListRow {
    pub number: u64,
    pub severity: Severity,
    pub closed: bool,
    pub title: Text,
}
