//! Features and their identifiers.

ghost use Rattle.std.specs.Prelude.{◌≡◌, IfOk};

use crate::value::Value;
use std::alloc::Global;
use wfs_ends::{List, Mem, Shared};

/// The identifier of a feature: the number of its type in the schema, and its own number among all features that
/// there ever were of this type, from 1 on. A feature that has no number yet has 0.
#[derive(Clone, Copy, Debug, PartialEq, Eq)]
pub struct Rid {
    pub kind: u32,
    pub number: u64,
}

/// A feature: one value for each property of its type, in the type's order. Its copies share the values.
#[derive(Debug, PartialEq, Eq, Drop)]
pub struct Feature {
    pub id: Rid,
    pub values: Shared<List<Value>>,
}

impl Feature {
    /// The feature of these values.
    pub fn of(alloc: Global, id: Rid, values: Vec<Value>) -> Mem<Feature>
        ensures { IfOk result (λ f. f ≡ record { id = id; values = values.items }) }
    {
        Ok(Feature {
            id,
            values: Shared::new(alloc, List::of(values))?,
        })
    }

    /// The values, in the order of the type's properties.
    pub fn items(&self) -> &[Value]
        ensures { result.now ≡ self.now.values }
    {
        self.values.item().items()
    }

    /// An equal feature, which shares the values.
    pub fn copy(&self, _alloc: Global) -> Mem<Feature>
        ensures { IfOk result (λ f. f ≡ self.now) }
    {
        Ok(Feature {
            id: self.id,
            values: self.values.copy()?,
        })
    }
}
