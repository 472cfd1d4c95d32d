//! What filters are put to: features in their default order.

ghost use Rattle.std.specs.Prelude.{◌≡◌, ◌≤◌, ℕ, List, IfOk, length};
ghost use Rattle.std.specs.Option.{option_copied};
ghost use Rattle.geom_core.specs.Plane.{Bounds};
ghost use Rattle.feature_values.specs.declared.feature.Feature.{Feature};
ghost use Rattle.feature_values.specs.declared.schema.Schema.{Schema};
ghost use Rattle.fes_filter.specs.View.{IsView, HasAllNear, IsOnce, feature_at, next_after};

use feature_values::{Feature, Rid};
use geom_core::Box2;
use std::alloc::Global;
use wfs_ends::{List, Mem};

/// Features, as a query sees them. It is seen as a list of features in default order (by type, in the order of the
/// schema, and within a type by number), as the schema that allows each of them, and as the greatest number of
/// identifiers that it gives near a box, by type.
pub trait FeatureView {
    ghost features: { Self → List Feature };

    ghost schema: { Self → Schema };

    ghost most_near: { Self → ℕ → Bounds → ℕ };

    /// The feature with this identifier.
    fn get(&self, id: Rid) -> Option<&Feature>
        ensures value { option_copied result ≡ feature_at id (features self.now) }
        ensures view { IsView (schema self.now) (features self.now) };

    /// The first feature in default order, or the first behind this identifier, which need not be there.
    fn next(&self, after: Option<Rid>) -> Option<&Feature>
        ensures value { option_copied result ≡ next_after after (features self.now) }
        ensures view { IsView (schema self.now) (features self.now) };

    /// The same as `next`, for a walk. `place` is where the view may find the feature without a search: 0 at first,
    /// and then as the last call of the walk left it. Whatever it is, the answer is the same.
    fn walk(&self, after: Option<Rid>, place: &mut u64) -> Option<&Feature>
        ensures value { option_copied result ≡ next_after after (features self.now) }
        ensures view { IsView (schema self.now) (features self.now) }
    {
        let _ = place;
        self.next(after)
    }

    /// Identifiers, each once, and among them those of all features of the type that have a geometry whose bounds meet
    /// the box (so also of those whose geometry does); no more than `most_near` says.
    fn near(&self, alloc: Global, kind: u32, area: &Box2) -> Mem<List<Rid>>
        ensures whole { IfOk result (λ ids. HasAllNear kind area.now (features self.now) ids) }
        ensures once { IfOk result (λ ids. IsOnce ids) }
        ensures few { IfOk result (λ ids. length ids ≤ most_near self.now kind area.now) };
}
