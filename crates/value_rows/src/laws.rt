//! A law of shapes: the contract of a function that does nothing.

ghost use Rattle.std.specs.Prelude.{◌≡◌, ◌↔◌, IsTrue};
ghost use Rattle.geom_core.specs.Shapes.{same_area};

use geom_core::Polygon;

/// Two polygons are the same exactly where their shells and their holes are equal.
#[tactic(auto, using(geom_core::proofs::Equal::same_area_Decides))]
pub fn same_areas_are_equal(a: &Polygon, b: &Polygon)
    ensures { IsTrue (same_area a.now b.now) ↔ (a.now ≡ b.now) }
{}
