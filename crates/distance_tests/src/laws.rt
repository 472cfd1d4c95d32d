//! Laws of distance. Each is the contract of a function that does nothing.
ghost use Rattle.std.specs.Prelude.{◌≡◌, ◌≤◌, ℕ, IsTrue};
ghost use Rattle.geom_core.specs.declared.geometry.Geometry.{Geometry};
ghost use Rattle.spatial_tests.specs.Sharing.{do_intersect};
ghost use Rattle.distance_tests.specs.Within.{is_within_distance};

/// It does not matter which geometry is named first.
pub fn distance_is_symmetric()
    ensures { (a b : Geometry) (d : ℕ) → is_within_distance a b d ≡ is_within_distance b a d }
{}

/// What lies within a distance lies within each greater one.
pub fn distance_is_monotone()
    ensures { (a b : Geometry) (d e : ℕ) → d ≤ e → IsTrue (is_within_distance a b d)
        → IsTrue (is_within_distance a b e) }
{}

/// What lies within distance 0 is what intersects.
pub fn distance_zero_is_intersecting()
    ensures { (a b : Geometry) → is_within_distance a b 0 ≡ do_intersect a b }
{}
