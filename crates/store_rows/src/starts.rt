//! Stores that have just begun.

ghost use Rattle.std.specs.Prelude.{◌≡◌, ◌≤◌, [], IfOk};
ghost use Rattle.feature_schema.specs.Rules.{KeepsRules};

use disk_core::{Disk, Pair};
use feature_values::Schema;
use std::alloc::Global;
use wfs_model::Limits;
use wfs_store::Store;

/// The limits that are stated, but for that on entries.
pub fn limits(entries: u16) -> Limits {
    let stated = Limits::stated();
    Limits {
        entries: u64::from(entries),
        bytes: stated.bytes,
        features: stated.features,
        ids: stated.ids,
        locks: stated.locks,
        stored: stated.stored,
        side: stated.side,
    }
}

/// The limits that are stated, but for those on entries, on their bytes, and on a side's length.
pub fn narrow(entries: u16, bytes: u16, side: u16) -> Limits {
    let stated = Limits::stated();
    Limits {
        entries: u64::from(entries),
        bytes: u64::from(bytes),
        features: stated.features,
        ids: stated.ids,
        locks: stated.locks,
        stored: stated.stored,
        side: u64::from(side),
    }
}

/// A store of so many entries at the most, or the disks where none was started.
pub fn started<D: Disk>(
    alloc: Global,
    disks: Pair<D>,
    schema: &Schema,
    entries: u16,
) -> Result<Store<D>, Pair<D>>
    requires { KeepsRules schema.now }
    ensures schema { IfOk result (λ store. store.schema ≡ schema.now) }
    ensures entries { IfOk result (λ store. store.entries ≡ []) }
{
    started_within(alloc, disks, schema, limits(entries))
}

/// A store of these limits, or the disks where none was started.
pub fn started_within<D: Disk>(
    alloc: Global,
    disks: Pair<D>,
    schema: &Schema,
    limits: Limits,
) -> Result<Store<D>, Pair<D>>
    requires { KeepsRules schema.now }
    ensures schema { IfOk result (λ store. store.schema ≡ schema.now) }
    ensures entries { IfOk result (λ store. store.entries ≡ []) }
{
    match Store::start(alloc, disks, schema, limits) {
        Ok(store) => Ok(store),
        Err((disks, _)) => Err(disks),
    }
}
