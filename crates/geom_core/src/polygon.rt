//! Polygons: a shell and holes that lie within it, valid once made.
ghost use Rattle.std.specs.Prelude.{◌≡◌, ◌+◌, ◌≤◌, length, sum_by, nat_lt, IsTrue};
ghost use Rattle.std.specs.List.{list_all};
ghost use Rattle.geom_core.specs.Shapes.{polygon_of, are_holes_within, is_hole_within, IsPolygon};
ghost use Rattle.geom_core.specs.Plane.{least_box, Point, IsInBox};
ghost use Rattle.geom_core.specs.Extents.{IsLeastBox, positions_of_area};
ghost use Rattle.geom_core.specs.Rings.{is_within, is_in_area};
ghost use Rattle.geom_core.specs.Blocks.{AreBoxes};

use crate::blocks::MOST_BLOCKS;
use crate::placing::Place;
use crate::{Box2, GeomFault, MOST_POSITIONS, Pos, Ring};
use std::marker::Model;

/// What a shell encloses but for its holes: at most 10,000 positions in all, and each position
/// of a hole lies within the shell or on it.
#[derive(Debug, Drop)]
pub struct Polygon {
    shell: Ring,
    holes: Vec<Ring>,
}

impl Model for Polygon {
    ghost use Rattle.geom_core.specs.Plane.{Area};
    ghost use Rattle.geom_core.specs.Shapes.{IsPolygon};

    ghost Value = { Area };

    ghost view = { λ a. record { shell = a.shell; holes = a.holes.items } };

    ghost invariant = { λ a. IsPolygon a.shell a.holes.items };
}

impl Polygon {
    /// The polygon of this shell and these holes, kept as given. `TooMany`: over 10,000 positions
    /// in all; `HoleOutside`: a position of a hole is outside the closed shell.
    pub fn new(shell: Ring, holes: Vec<Ring>) -> Result<Polygon, GeomFault>
        ensures { result ≡ polygon_of shell holes.items }
    {
        if are_too_many(&shell, holes.as_slice()) {
            return Err(GeomFault::TooMany);
        }
        if !are_holes_within(&shell, holes.as_slice()) {
            return Err(GeomFault::HoleOutside);
        }
        Ok(Polygon { shell, holes })
    }

    /// The ring round the whole.
    pub fn shell(&self) -> &Ring
        ensures { result.now ≡ self.now.shell }
    {
        &self.shell
    }

    /// The rings of what is left out.
    pub fn holes(&self) -> &[Ring]
        ensures { result.now ≡ self.now.holes }
    {
        self.holes.as_slice()
    }

    /// How many rings it has, the shell among them.
    pub fn count_rings(&self) -> usize
        ensures value { result ≡ length self.now.holes + 1 }
        ensures polygon { IsPolygon self.now.shell self.now.holes }
    {
        self.holes.len() + 1
    }

    /// The least box that holds the polygon: the shell's.
    pub fn bounds(&self) -> Box2
        ensures value { result ≡ least_box self.now.shell }
        ensures least { IsLeastBox result (positions_of_area self.now) }
        ensures area { (p : Point) → IsTrue (is_in_area p self.now) → IsInBox p result }
    {
        self.shell.bounds()
    }
}

/// Whether a shell and holes have over 10,000 positions in all.
fn are_too_many(shell: &Ring, holes: &[Ring]) -> bool
    ensures { result ≡ nat_lt 10_000 (length shell.now + sum_by length holes.now) }
{
    let mut total = shell.count();
    for hole in holes {
        total += hole.count();
        if total > MOST_POSITIONS {
            return true;
        }
    }
    false
}

/// Whether each position of each hole lies within the shell or on it.
fn are_holes_within(shell: &Ring, holes: &[Ring]) -> bool
    ensures { result ≡ are_holes_within shell.now holes.now }
{
    holes.is_empty() || are_all_within(shell, &shell.boxes(), holes)
}

/// Whether each position of each hole lies within the shell or on it, by the shell's boxes.
#[tactic(auto, using(std::proofs::lemmas::List::Folds::list_all_more, std::proofs::lemmas::List::Folds::list_all_at))]
fn are_all_within(shell: &Ring, boxes: &[Box2; MOST_BLOCKS], holes: &[Ring]) -> bool
    requires { AreBoxes boxes.now shell.now }
    ensures { result ≡ are_holes_within shell.now holes.now }
{
    for hole in holes {
        if !is_hole_within(shell, boxes, hole.positions()) {
            return false;
        }
    }
    true
}

/// Whether each of these positions lies within the shell or on it.
#[tactic(auto, using(std::proofs::lemmas::List::Folds::list_all_more, std::proofs::lemmas::List::Folds::list_all_at))]
fn is_hole_within(shell: &Ring, boxes: &[Box2; MOST_BLOCKS], hole: &[Pos]) -> bool
    requires { AreBoxes boxes.now shell.now }
    ensures { result ≡ is_hole_within shell.now hole.now }
{
    for p in hole {
        if !is_within(*p, shell, boxes) {
            return false;
        }
    }
    true
}

/// Whether a position lies within a ring or on it.
#[tactic(auto, unfolding(crate::specs::Rings::is_within, crate::specs::Places::place_of))]
fn is_within(p: Pos, ring: &Ring, boxes: &[Box2; MOST_BLOCKS]) -> bool
    requires { AreBoxes boxes.now ring.now }
    ensures { result ≡ is_within p ring.now }
{
    match ring.place_by(p, boxes) {
        Place::On | Place::Within => true,
        Place::Outside => false,
    }
}

impl PartialEq for Polygon {
    ghost use Rattle.std.proofs.Common.{rules};
    ghost use Rattle.std.specs.Cmp.Rules.{comparing};
    ghost use Rattle.geom_core.specs.Shapes.{same_area};

    ghost eq = { same_area };

    ghost laws = { Prim.search (comparing, rules) depth 9 };

    fn eq(&self, other: &Polygon) -> bool {
        self.shell == other.shell && self.holes.as_slice() == other.holes.as_slice()
    }
}

impl Eq for Polygon {
    ghost use Rattle.std.proofs.Common.{rules};
    ghost use Rattle.std.specs.Cmp.Rules.{comparing};

    ghost laws = { Prim.search (comparing, rules) depth 9 };
}
