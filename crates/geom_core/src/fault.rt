//! Why a shape is not valid.

use thiserror::Error;

/// Why a shape is not valid. Where several faults hold, the first in the order of
/// `OutOfRange`, `TooMany`, `TooFew`, `NotClosed`, `Turned`, `HoleOutside` is named.
#[derive(Clone, Copy, Debug, PartialEq, Eq, Error)]
pub enum GeomFault {
    /// A coordinate lies outside plus or minus 1,000,000,000.
    #[error("a coordinate lies outside plus or minus 1,000,000,000")]
    OutOfRange,
    /// A ring has fewer than four positions, or a line fewer than two.
    #[error("a ring has fewer than four positions, or a line fewer than two")]
    TooFew,
    /// The last position of a ring is not its first.
    #[error("the last position of a ring is not its first")]
    NotClosed,
    /// A shape has over 10,000 positions in all.
    #[error("over 10,000 positions")]
    TooMany,
    /// A hole's position lies outside the closed shell.
    #[error("a hole's position lies outside the shell")]
    HoleOutside,
    /// A box has its low corner above its high corner in some coordinate.
    #[error("a box has its low corner above its high corner")]
    Turned,
}
