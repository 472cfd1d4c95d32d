//! Why two files were not recovered.

use thiserror::Error;

/// Where a byte string is no journal's.
#[derive(Clone, Copy, Debug, PartialEq, Eq)]
pub struct Place {
    /// Whether it is on side b.
    pub second_side: bool,
    /// The byte, from 0.
    pub at: u64,
}

/// Why two files were not recovered.
#[derive(Clone, Copy, Debug, PartialEq, Eq, Error)]
pub enum RecoverFault {
    /// A disk failed.
    #[error("a disk failed")]
    DiskFault,
    /// A side is no journal's at this place: its mark or version differs there, or there stands an open gate whose
    /// record passes the end of the file or has bytes that are none.
    #[error("a side is no journal's at byte {at}", at = .0.at)]
    NotAJournal(Place),
    /// The record of this number, from 0, is none of the schema.
    #[error("record {0} is none of the schema")]
    NotOfSchema(u64),
    /// The length that was read so far, up to and with a gate, is above the limit.
    #[error("the length is above the limit: {0}")]
    Full(u64),
    #[error("out of memory")]
    OutOfMemory,
}
