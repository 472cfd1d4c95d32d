//! Who wants to change features.

ghost use Rattle.std.specs.Prelude.{◌≤◌};

use feature_values::Schema;
use lock_table::LockTable;

/// Who wants to change features: a transaction at a moment, with the lock of a number or without one.
#[derive(Drop)]
pub(crate) struct Guard<'a> {
    pub schema: &'a Schema,
    /// The locks. None of them was changed behind the moment.
    pub locks: &'a LockTable,
    pub moment: u64,
    /// The lock that the transaction names.
    pub number: Option<u64>,
    ghost later: { locks.now.last ≤ moment },
}
