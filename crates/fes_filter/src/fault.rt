//! Why a feature type does not allow a filter.

use thiserror::Error;

/// Why a feature type does not allow a filter.
#[derive(Clone, Copy, Debug, PartialEq, Eq, Error)]
pub enum FilterFault {
    /// The type has no property of this number, or there is no type.
    #[error("there is no such property, or no such type")]
    Unknown,
    /// A value or a property is of another kind than the operator, or the property beside it, asks for.
    #[error("a value or a property is of another kind than the operator asks for")]
    Types,
    /// Case is left out where texts are not compared for equality.
    #[error("case is left out where texts are not compared for equality")]
    Choice,
    /// There are over 1,000 operators.
    #[error("over 1,000 operators")]
    TooLarge,
}
