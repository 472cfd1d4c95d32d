//! Why a stored text was not read.

use thiserror::Error;
use wfs_ends::OutOfMemory;

/// Why a stored text was not read.
#[derive(Clone, Copy, Debug, PartialEq, Eq, Error)]
pub enum StoredTextFault {
    /// It is not the text that stands for some queries.
    #[error("the text does not stand for queries")]
    BadText,
    /// Memory ran out.
    #[error("out of memory")]
    OutOfMemory,
}

impl From<OutOfMemory> for StoredTextFault {
    ghost use Rattle.std.specs.Prelude.{◌≡◌};
    ghost use Rattle.query_docs.specs.declared.fault.StoredTextFault.TheVariants.{OutOfMemory as NoMemory};

    ghost from_gives = { λ _ fault. fault ≡ NoMemory };

    fn from(_: OutOfMemory) -> StoredTextFault {
        StoredTextFault::OutOfMemory
    }
}
