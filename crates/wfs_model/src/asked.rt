//! What a request asks for of the features, and how it is to be presented.

use fes_filter::Query;
use wfs_ends::{List, Text};

/// What is asked for of the features (OGC 09-025r2, 7.9).
#[derive(Debug, PartialEq, Eq, Drop)]
pub enum Asked {
    /// The features that a query selects (7.9.2).
    Plain(Query),
    /// The features that a stored query selects (7.9.3).
    Stored {
        /// Its identifier.
        id: Text,
        /// Names of parameters and their values, in order. A request for the values of a property has the property's
        /// name among them, under the empty name.
        given: List<(Text, Text)>,
    },
}

/// How the features that were asked for are presented (OGC 09-025r2, 7.6.3).
#[derive(Debug, PartialEq, Eq, Drop)]
pub struct Present {
    /// How many features are left out before the first.
    pub start: u32,
    /// How many features are given at most. Without it, all are.
    pub count: Option<u32>,
    /// Whether the features are only counted.
    pub hits: bool,
    /// The beginning of the links to other pages, up to and without `&startIndex`. It is there exactly where a request
    /// for features or values, without a lock, came as a query of key-value pairs.
    pub link: Option<Text>,
}
