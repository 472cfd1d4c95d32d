//! What a request is judged by.

ghost use Rattle.std.specs.Prelude.{◌≡◌, ◌≤◌};

use feature_values::Schema;
use lock_table::LockTable;
use wfs_ends::List;
use wfs_model::StoredQuery;

/// What a request is judged by, beside the features that stand.
#[derive(Drop)]
pub struct Basis<'a> {
    /// The schema of the features.
    pub schema: &'a Schema,
    /// How many numbers were given, by type.
    pub counters: &'a List<u64>,
    /// The stored queries but the built-in one, in the order in which they were made.
    pub stored: &'a [StoredQuery],
    /// The locks of the opening. None of them was changed behind the moment.
    pub locks: &'a LockTable,
    /// The number of the opening.
    pub opening: u64,
    /// How many locks were granted in the opening.
    pub given: u64,
    /// The moment of the request, in whole seconds since 1970.
    pub moment: u64,
    ghost of_opening: { locks.now.opening ≡ opening },
    ghost granted: { locks.now.given ≡ given },
    ghost later: { locks.now.last ≤ moment },
}
