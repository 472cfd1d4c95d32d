//! Actions of transactions.

use feature_values::{Feature, Value};
use fes_filter::Filter;
use wfs_ends::{List, Text};

/// An action of a transaction (OGC 09-025r2, 15.2.4 to 15.2.7). Types and properties stand by their numbers in the schema.
#[derive(Debug, PartialEq, Eq, Drop)]
pub enum Action {
    /// Features to be inserted, in order (15.2.4).
    Insert {
        /// The name that the client gave the action.
        handle: Option<Text>,
        /// The features, each with the number 0.
        features: List<Feature>,
    },
    /// New values for some properties of the selected features (15.2.5).
    Update {
        /// The name that the client gave the action.
        handle: Option<Text>,
        /// The type of the features.
        kind: u32,
        /// Properties and their values, set in order.
        sets: List<(u32, Value)>,
        /// Without a filter all features of the type are selected.
        filter: Option<Filter>,
    },
    /// New values for all properties of the one feature that is selected (15.2.6).
    Replace {
        /// The name that the client gave the action.
        handle: Option<Text>,
        /// The values, and with the number 0 the type.
        feature: Feature,
        /// What selects the feature.
        filter: Filter,
    },
    /// The selected features go (15.2.7).
    Delete {
        /// The type of the features.
        kind: u32,
        /// What selects them.
        filter: Filter,
    },
}
