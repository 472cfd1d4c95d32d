//! Boxes with sides along the axes, and the least box of positions.
ghost use Rattle.std.specs.Prelude.{◌≡◌, ◌<◌, length, fold};
ghost use Rattle.geom_core.specs.Shapes.{box_of};
ghost use Rattle.geom_core.specs.Plane.{box_at, grown, low_corner, high_corner, least_box, box_between, is_beyond, are_apart};

use crate::{GeomFault, Pos};
use std::marker::Model;

/// A box with sides along the axes; both corners belong to it.
#[derive(Clone, Copy, Debug, PartialEq, Eq)]
pub struct Box2 {
    pub low: Pos,
    pub high: Pos,
}

impl Model for Box2 {
    ghost use Rattle.geom_core.specs.Plane.{Bounds, IsUpright};

    ghost Value = { Bounds };

    ghost view = { λ b. record { low = b.low; high = b.high } };

    ghost inverse = { λ b. record { low = b.low; high = b.high } };

    ghost invariant = { λ b. IsUpright (record { low = b.low; high = b.high }) };
}

impl Box2 {
    /// The box between these corners. `Turned`: a coordinate of `low` is above that of `high`.
    pub fn new(low: Pos, high: Pos) -> Result<Box2, GeomFault>
        ensures { result ≡ box_of low high }
    {
        if low.x > high.x || low.y > high.y {
            return Err(GeomFault::Turned);
        }
        Ok(Box2 { low, high })
    }

    /// The box of one position.
    pub fn at(p: Pos) -> Box2
        ensures { result ≡ box_at p }
    {
        Box2 { low: p, high: p }
    }

    /// The least box that holds two positions, and so the segment between them.
    pub fn between(a: Pos, b: Pos) -> Box2
        ensures { result ≡ box_between a b }
    {
        Box2 {
            low: low_corner(a, b),
            high: high_corner(a, b),
        }
    }

    /// Whether the boxes share no position.
    #[tactic(auto, unfolding(crate::specs::Plane::are_apart))]
    pub fn is_apart(&self, other: &Box2) -> bool
        ensures { result ≡ are_apart self.now other.now }
    {
        is_beyond(self.low, other.high) || is_beyond(other.low, self.high)
    }

    /// The least box that holds this box and the position.
    pub fn grown(&self, p: Pos) -> Box2
        ensures { result ≡ grown self.now p }
    {
        Box2 {
            low: low_corner(self.low, p),
            high: high_corner(self.high, p),
        }
    }
}

/// Whether a box with this low corner lies beyond one with this high corner, in some direction.
fn is_beyond(low: Pos, high: Pos) -> bool
    ensures { result ≡ is_beyond low high }
{
    low.x > high.x || low.y > high.y
}

/// The corner of least coordinates of the box between two positions.
fn low_corner(a: Pos, b: Pos) -> Pos
    ensures { result ≡ low_corner a b }
{
    Pos {
        x: a.x.min(b.x),
        y: a.y.min(b.y),
    }
}

/// The corner of greatest coordinates of the box between two positions.
fn high_corner(a: Pos, b: Pos) -> Pos
    ensures { result ≡ high_corner a b }
{
    Pos {
        x: a.x.max(b.x),
        y: a.y.max(b.y),
    }
}

/// The least box that holds these positions.
pub fn least_box(positions: &[Pos]) -> Box2
    requires { 0 < length positions.now }
    ensures { result ≡ least_box positions.now }
{
    all_grown(Box2::at(positions[0]), &positions[1..])
}

/// The least box that holds a box and these positions.
#[tactic(auto, using(std::proofs::lemmas::List::Sums::fold_more))]
fn all_grown(mut bounds: Box2, positions: &[Pos]) -> Box2
    ensures { result ≡ fold grown bounds positions.now }
{
    for p in positions {
        bounds = bounds.grown(*p);
    }
    bounds
}
