//! Why no request was read, and what may be wrong with stored queries.

use crate::reply::Refusal;
use thiserror::Error;
use wfs_ends::{OutOfMemory, Text};

/// Why no request was read.
#[derive(Debug, PartialEq, Eq, Drop, Error)]
pub enum AskFault {
    /// The message is refused.
    #[error("refused at {locator}, by row {row} of the table of refusals", locator = .0.locator.as_str(), row = .0.row)]
    Refused(Refusal),
    /// Memory ran out.
    #[error("out of memory")]
    OutOfMemory,
}

impl From<OutOfMemory> for AskFault {
    ghost use Rattle.std.specs.Prelude.{◌≡◌};
    ghost use Rattle.wfs_model.specs.declared.fault.AskFault.TheVariants.{OutOfMemory};

    ghost from_gives = { λ _ e. e ≡ OutOfMemory };

    fn from(_: OutOfMemory) -> Self {
        AskFault::OutOfMemory
    }
}

/// Why stored queries are not changed or not used (OGC 09-025r2, 7.9.3.4 and 14).
#[derive(Debug, PartialEq, Eq, Drop, Error)]
pub enum StoredFault {
    /// A stored query with this identifier is there already.
    #[error("a stored query {name} is there already", name = .0.as_str())]
    DuplicateId(Text),
    /// A stored query has two parameters of this name, whose case does not count.
    #[error("two parameters have the name {name}", name = .0.as_str())]
    DuplicateParameter(Text),
    /// There is no stored query with this identifier.
    #[error("there is no stored query {name}", name = .0.as_str())]
    Unknown(Text),
    /// The parameter of this name is not given.
    #[error("the parameter {name} is not given", name = .0.as_str())]
    MissingParameter(Text),
    /// The built-in stored query cannot be dropped.
    #[error("the built-in stored query cannot be dropped")]
    BuiltIn,
    /// The value that is given for the parameter of this name cannot be read, or there is no such parameter.
    #[error("the value of the parameter {name} cannot be read, or there is none of that name", name = .0.as_str())]
    BadParameter(Text),
    /// Memory ran out.
    #[error("out of memory")]
    OutOfMemory,
}

impl From<OutOfMemory> for StoredFault {
    ghost use Rattle.std.specs.Prelude.{◌≡◌};
    ghost use Rattle.wfs_model.specs.declared.fault.StoredFault.TheVariants.{OutOfMemory};

    ghost from_gives = { λ _ e. e ≡ OutOfMemory };

    fn from(_: OutOfMemory) -> Self {
        StoredFault::OutOfMemory
    }
}
