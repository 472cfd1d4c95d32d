//! What requests are answered.

use crate::stored::StoredQuery;
use feature_values::{Feature, Rid};
use lock_table::LockId;
use wfs_ends::{List, Text};

/// A feature that an action made or changed, with the action's handle.
#[derive(Debug, PartialEq, Eq, Drop)]
pub struct Made {
    /// The feature's id.
    pub id: Rid,
    /// The handle of the action, where it has one.
    pub handle: Option<Text>,
}

/// Why a request is refused: the row of the table of refusals (docs/FORMATS.md), and what it points at.
#[derive(Debug, PartialEq, Eq, Drop)]
pub struct Refusal {
    /// The row, from 1 to 27.
    pub row: u8,
    /// The name of the part of the request that is refused (OGC 06-121r9, 8.5: locator).
    pub locator: Text,
}

/// The answer to a request.
#[derive(Debug, PartialEq, Eq, Drop)]
pub enum Reply {
    /// What the service offers (OGC 09-025r2, 8.3).
    Capabilities,
    /// The schema of these types, by number, in the order asked (9.3).
    Types(List<u32>),
    /// Features, or their number alone (11.3).
    Collection {
        /// The moment of the answer, in whole seconds since 1970.
        moment: u64,
        /// How many features were selected, before the page was cut out.
        matched: u64,
        /// The features of the page, in order; none where they are only counted.
        features: List<Feature>,
        /// The lock that was taken on them, where one was (13.3).
        lock: Option<LockId>,
        /// The link to the next page, where there is one.
        next: Option<Text>,
        /// The link to the page before, where there is one.
        previous: Option<Text>,
    },
    /// Values of a property, or their number alone (10.3).
    Values {
        /// The moment of the answer, in whole seconds since 1970.
        moment: u64,
        /// How many values that are not null the selected features have, before the page was cut out.
        matched: u64,
        /// The property, by its number in the type of the features.
        property: u32,
        /// The features of the page, in order, each with a value that is not null; none where they are only counted.
        features: List<Feature>,
        /// The link to the next page, where there is one.
        next: Option<Text>,
        /// The link to the page before, where there is one.
        previous: Option<Text>,
    },
    /// The one feature that was asked for by its id (7.9.3.6).
    Bare(Feature),
    /// A lock was taken, or renewed (12.3).
    Locked {
        /// The lock, where there is one.
        lock: Option<LockId>,
        /// The features that it holds, in order.
        taken: List<Rid>,
        /// The selected features that other locks hold, in order.
        missed: List<Rid>,
    },
    /// A transaction was carried out (15.3).
    Transacted {
        /// How many features were deleted.
        deleted: u64,
        /// The features inserted, in order.
        inserted: List<Made>,
        /// The features updated, in order, each once per action that updates it.
        updated: List<Made>,
        /// The features replaced, in order.
        replaced: List<Made>,
    },
    /// The stored queries by name (14.3).
    StoredList(List<StoredQuery>),
    /// Stored queries whole (14.4).
    StoredTexts(List<StoredQuery>),
    /// The stored queries were made (14.5).
    Created,
    /// The stored query is gone (14.6).
    Dropped,
    /// The request is refused.
    Refused(Refusal),
}
