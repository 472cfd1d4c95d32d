//! What changing requests leave to be kept when the process ends.

ghost use Rattle.std.specs.Prelude.{◌≡◌, IfOk};

use crate::stored::{StoredQuery, copy_stored};
use feature_values::{Feature, Rid};
use std::alloc::Global;
use wfs_ends::{List, Mem, Text};

/// A change of one feature.
#[derive(Debug, PartialEq, Eq, Drop)]
pub enum Part {
    /// The feature stands under its identifier, whether one stood there before or not.
    Put(Feature),
    /// No feature stands under this identifier any more.
    Remove(Rid),
}

/// A change of what outlives the process: the features, how many numbers were given of each type, the stored queries, and
/// the number of the opening.
#[derive(Debug, PartialEq, Eq, Drop)]
pub enum Change {
    /// The service opens with this number.
    Opening(u64),
    /// Changes of single features, in order.
    Rows(List<Part>),
    /// New stored queries, in order.
    Created(List<StoredQuery>),
    /// The stored query with this identifier goes.
    Dropped(Text),
    /// What a checkpoint begins with: nothing but these two.
    Base {
        /// The number of the opening.
        opening: u64,
        /// How many numbers were given, by type.
        counters: List<u64>,
    },
}

impl Part {
    fn copy(&self, alloc: Global) -> Mem<Part>
        ensures { IfOk result (λ p. p ≡ self.now) }
    {
        match self {
            Part::Put(feature) => Ok(Part::Put(feature.copy(alloc)?)),
            Part::Remove(id) => Ok(Part::Remove(*id)),
        }
    }
}

fn copy_parts(alloc: Global, parts: &[Part]) -> Mem<List<Part>>
    ensures { IfOk result (λ all. all ≡ parts.now) }
{
    let mut all = Vec::with_capacity(alloc, parts.len())?;
    for part in parts {
        all.push(part.copy(alloc)?)?;
    }
    Ok(List::of(all))
}

impl Change {
    /// An equal change.
    pub fn copy(&self, alloc: Global) -> Mem<Change>
        ensures { IfOk result (λ c. c ≡ self.now) }
    {
        match self {
            Change::Opening(number) => Ok(Change::Opening(*number)),
            Change::Rows(parts) => Ok(Change::Rows(copy_parts(alloc, parts.items())?)),
            Change::Created(stored) => Ok(Change::Created(copy_stored(alloc, stored.items())?)),
            Change::Dropped(id) => Ok(Change::Dropped(id.copy(alloc)?)),
            Change::Base { opening, counters } => Ok(Change::Base {
                opening: *opening,
                counters: List::of(Vec::from_slice(alloc, counters.items())?),
            }),
        }
    }
}
