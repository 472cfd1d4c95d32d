//! The machine as a view of its features.

ghost use Rattle.std.specs.Prelude.{◌≡◌};
ghost use Rattle.wfs_model.specs.State.{durable};
ghost use Rattle.wfs_model.specs.Kept.{IsKept};

use crate::Plain;
use crate::ordered::{feature_from, feature_in, ids_of_type};
use feature_values::{Feature, Rid};
use fes_filter::FeatureView;
use geom_core::Box2;
use std::alloc::Global;
use wfs_ends::{List, Mem};

impl Plain {
    /// The features, in default order.
    pub(crate) fn listed(&self) -> &[Feature]
        ensures features { result.now ≡ self.now.state.features }
        ensures kept { IsKept self.now.schema (durable self.now.state) }
    {
        self.features.as_slice()
    }
}

impl FeatureView for Plain {
    ghost use Rattle.wfs_machine.specs.Ordered.{count_of};

    ghost features = { λ machine. machine.state.features };

    ghost schema = { λ machine. machine.schema };

    // each feature of the type is given, near or not
    ghost most_near = { λ machine kind _. count_of kind machine.state.features };

    fn get(&self, id: Rid) -> Option<&Feature> {
        feature_in(self.listed(), id)
    }

    fn next(&self, after: Option<Rid>) -> Option<&Feature> {
        let mut place = 0;
        self.walk(after, &mut place)
    }

    // In constant time, where the place is that of the feature that is gone on from.
    fn walk(&self, after: Option<Rid>, place: &mut u64) -> Option<&Feature> {
        feature_from(self.listed(), after, place)
    }

    fn near(&self, alloc: Global, kind: u32, _area: &Box2) -> Mem<List<Rid>> {
        ids_of_type(alloc, self.listed(), kind)
    }
}
