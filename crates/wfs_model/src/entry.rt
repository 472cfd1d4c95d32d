//! Entries of the history.

use crate::request::Request;

/// The latest moment, in whole seconds since 1970. A later one that is handed in counts as this.
pub const LAST_MOMENT: u64 = 200_000_000_000;

/// An entry of the history: a changing request, with the seat and the moment at which it was taken up and the length of
/// the message's body, or of its query where it has none.
#[derive(Debug, PartialEq, Eq, Drop)]
pub struct Entry {
    /// Who asked.
    pub seat: u32,
    /// The moment, in whole seconds since 1970.
    pub moment: u64,
    /// The length of the body, or of the query text, in bytes.
    pub size: u32,
    /// What was asked.
    pub request: Request,
}
