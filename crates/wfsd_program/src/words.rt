//! What the words of `serve` ask for.

use wfs_ends::Text;

/// What the words of `serve` ask for.
#[derive(Debug, Drop)]
pub(crate) struct ServeWords {
    /// The address to listen at.
    pub listen: Text,
    /// How many workers, 1 to 16.
    pub workers: u32,
    /// After how many links each worker ends, where that was given.
    pub connections: Option<u32>,
}
