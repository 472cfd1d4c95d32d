//! Whether geometries lie within a distance of each other.
ghost use Rattle.std.specs.Prelude.{◌≡◌, ◌≤◌};
ghost use Rattle.distance_tests.specs.Within.{is_within_distance};

use crate::gaps::are_farther;
use crate::segments::are_any_near;
use geom_core::{Geometry, bounds};
use spatial_tests::intersects;

/// The greatest distance that is asked for, in whole units of the service's reference system. It is
/// more than any two positions have.
pub const FARTHEST_DISTANCE: u64 = 4_000_000_000;

/// Whether the geometries lie within `d` of each other (OGC 09-026r2, section 7.8: DWithin; Beyond
/// is its opposite): they share a position, or an end of a segment of one is near a segment of the
/// other. The distance itself counts as within. `d` is in whole units of the service's reference
/// system. It is exact and takes no memory, and it does not matter which geometry is named first
/// (`distance_is_symmetric`). Geometries whose bounds lie farther apart cost one comparison.
#[tactic(auto, unfolding(crate::specs::Within::is_within_distance))]
pub fn within_distance(a: &Geometry, b: &Geometry, d: u64) -> bool
    requires { d ≤ 4_000_000_000 }
    ensures { result ≡ is_within_distance a.now b.now d }
{
    if are_farther(&bounds(a), &bounds(b), d) {
        return false;
    }
    intersects(a, b) || are_any_near(a, b, d)
}
