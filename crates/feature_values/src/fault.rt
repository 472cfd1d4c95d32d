//! Why a value or a feature is refused.

use thiserror::Error;
use wfs_ends::OutOfMemory;

/// Why a value or a feature is refused.
#[derive(Clone, Copy, Debug, PartialEq, Eq, Error)]
pub enum ValueFault {
    /// The schema has no type of the feature's number, or the feature has not one value per property of its type.
    #[error("no type has this number, or there is not one value for each property")]
    Unknown,
    /// A required property is null.
    #[error("a required property is null")]
    Missing,
    /// A text is no value of the property's kind, or a value is of another kind.
    #[error("a value is not of its property's kind")]
    BadValue,
    /// A text has more characters than the property allows.
    #[error("a text has more characters than its property allows")]
    TooLong,
    /// There is no memory for the value.
    #[error("out of memory")]
    OutOfMemory,
}

impl From<OutOfMemory> for ValueFault {
    ghost use Rattle.std.specs.Prelude.{◌≡◌};
    ghost use Rattle.feature_values.specs.declared.fault.ValueFault.TheVariants.{OutOfMemory as NoMemory};

    ghost from_gives = { λ _ fault. fault ≡ NoMemory };

    fn from(_: OutOfMemory) -> ValueFault {
        ValueFault::OutOfMemory
    }
}
