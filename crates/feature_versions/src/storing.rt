//! Copies of stored queries.

ghost use Rattle.std.specs.Prelude.{◌≡◌, IfOk};

use std::alloc::Global;
use stored_queries::Stored;
use wfs_ends::{List, Mem, OutOfMemory};
use wfs_model::StoredQuery;

fn copies(alloc: Global, queries: &[StoredQuery]) -> Mem<List<StoredQuery>>
    ensures { IfOk result (λ all. all ≡ queries.now) }
{
    let mut all = Vec::with_capacity(alloc, queries.len())?;
    for query in queries {
        all.push(query.copy(alloc)?)?;
    }
    Ok(List::of(all))
}

/// The same stored queries.
pub(crate) fn copy(alloc: Global, stored: &Stored) -> Mem<Stored>
    ensures { IfOk result (λ other. other.list ≡ stored.now.list) }
{
    let mut other = Stored::new(alloc);
    match other.create(copies(alloc, stored.list())?) {
        Ok(()) => Ok(other),
        Err(_) => Err(OutOfMemory),
    }
}
