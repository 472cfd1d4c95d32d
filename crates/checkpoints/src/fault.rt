//! Why a journal was not made shorter.

use thiserror::Error;

/// A journal was not made shorter.
#[derive(Clone, Copy, Debug, PartialEq, Eq, Error)]
pub enum CompactFault {
    /// A disk failed.
    #[error("a disk failed")]
    DiskFault,
    /// The length that the new side would have, which is above its limit; or the generation, where no greater one is left.
    #[error("the new side would pass its limit: {0}")]
    Full(u64),
    #[error("out of memory")]
    OutOfMemory,
}
