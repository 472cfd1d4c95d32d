//! The features as a view.

ghost use Rattle.std.specs.Prelude.{◌≡◌};
ghost use Rattle.wfs_model.specs.Kept.{IsKept};
ghost use Rattle.feature_versions.specs.Types.{features_of, AreTyped};

use crate::layer::Layer;
use crate::{Features, layers};
use feature_values::{Feature, Rid};
use fes_filter::FeatureView;
use geom_core::Box2;
use std::alloc::Global;
use wfs_ends::{List, Mem};

impl Features {
    // The features of each type at its place.
    fn by_type(&self) -> &[Layer]
        ensures features { features_of result.now ≡ self.now.kept.features }
        ensures typed { AreTyped result.now }
        ensures kept { IsKept self.now.schema self.now.kept }
    {
        self.layers.as_slice()
    }
}

impl FeatureView for Features {
    ghost use Rattle.feature_versions.specs.Near.{most_near};

    ghost features = { λ features. features.kept.features };

    ghost schema = { λ features. features.schema };

    // of the features of the type those that have a box near the asked one by the cells of the grid
    ghost most_near = { λ features kind area. most_near features.kept.features kind area };

    fn get(&self, id: Rid) -> Option<&Feature> {
        layers::get(self.by_type(), id)
    }

    fn next(&self, after: Option<Rid>) -> Option<&Feature> {
        layers::next(self.by_type(), after, 0).0
    }

    // In constant time but for rows whose features are gone, where the place is that of the feature that is gone on from.
    fn walk(&self, after: Option<Rid>, place: &mut u64) -> Option<&Feature> {
        let (found, next) = layers::next(self.by_type(), after, *place as usize);
        *place = next as u64;
        found
    }

    fn near(&self, alloc: Global, kind: u32, area: &Box2) -> Mem<List<Rid>> {
        layers::near(self.by_type(), alloc, kind, area)
    }
}
