//! Queries: a type, a filter and an order.

ghost use Rattle.std.specs.Prelude.{◌≡◌, IfOk};

use crate::filter::Filter;
use std::alloc::Global;
use wfs_ends::{List, Mem};

/// A property that features are sorted by (OGC 09-026r2, SortProperty).
#[derive(Clone, Copy, Debug, PartialEq, Eq)]
pub struct SortKey {
    /// Its index in the feature type.
    pub property: u32,
    pub descending: bool,
}

/// A query: the features of a type, or of all types, of which a filter is true, in an order.
#[derive(Debug, PartialEq, Eq, Drop)]
pub struct Query {
    /// The number of the type; `None` stands for all types.
    pub kind: Option<u32>,
    /// Without a filter all features of the type are selected.
    pub filter: Option<Filter>,
    /// The first key counts first. Where all are equal, and without keys, the default order decides.
    pub sort: List<SortKey>,
}

impl Query {
    /// An equal query.
    pub fn copy(&self, alloc: Global) -> Mem<Query>
        ensures { IfOk result (λ q. q ≡ self.now) }
    {
        let filter = match &self.filter {
            None => None,
            Some(filter) => Some(filter.copy(alloc)?),
        };
        let sort = copy_keys(alloc, self.sort.items())?;
        Ok(Query {
            kind: self.kind,
            filter,
            sort,
        })
    }
}

fn copy_keys(alloc: Global, keys: &[SortKey]) -> Mem<List<SortKey>>
    ensures { IfOk result (λ all. all ≡ keys.now) }
{
    let mut all = Vec::with_capacity(alloc, keys.len())?;
    for key in keys {
        all.push(*key)?;
    }
    Ok(List::of(all))
}
