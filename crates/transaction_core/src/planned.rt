//! What a transaction comes to.

use feature_values::Rid;
use wfs_ends::List;
use wfs_model::{Change, Reply};

/// What a transaction comes to where it is not refused.
#[derive(Debug, PartialEq, Eq, Drop)]
pub struct Planned {
    /// The changes of single features in order, as `Change::Rows`. A transaction that changes nothing has none in it.
    pub change: Change,
    /// The answer.
    pub reply: Reply,
    /// The features that the actions touch, in order, each as often as it is touched.
    pub touched: List<Rid>,
}
