//! What the body of a record says.

use wfs_ends::Text;
use wfs_model::Change;

/// What the body of a record says.
#[derive(Debug, PartialEq, Eq, Drop)]
pub struct Recorded {
    /// The change. What its stored queries ask is left out: their texts tell it.
    pub change: Change,
    /// The signature of the schema, where the change is an opening.
    pub signature: Option<Text>,
}
