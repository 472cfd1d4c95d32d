//! How far boxes lie apart, and what lies beyond the reach of a segment.
ghost use Rattle.std.specs.Prelude.{◌≡◌, ◌≤◌, ◌*◌, pos, ◌+ℤ◌, ◌-ℤ◌, unsigned_abs, ◌&&◌, int_lt};
ghost use Rattle.distance_tests.specs.Gaps.{gap, are_farther, reach_of, are_aside, is_beyond};
ghost use Rattle.std.specs.Int.{int_min, int_max};

use crate::near::{eastward, northward};
use geom_core::{Box2, Pos};

/// How far two spans lie apart, of which the second begins so far after the first ends, or the first so far after the
/// second.
fn gap(after: i64, before: i64) -> u64
    requires after { unsigned_abs after ≤ 2_000_000_000 }
    requires before { unsigned_abs before ≤ 2_000_000_000 }
    ensures value { result ≡ gap after before }
    ensures far { result ≤ 2_000_000_000 }
{
    after.max(before).max(0).unsigned_abs()
}

/// The square of a gap.
fn square(gap: u64) -> u64
    requires { gap ≤ 2_000_000_000 }
    ensures value { result ≡ gap * gap }
    ensures far { result ≤ 4_000_000_000_000_000_000 }
{
    gap * gap
}

/// Whether the boxes lie farther apart than `d`.
#[tactic(auto, unfolding(crate::specs::Gaps::are_farther))]
pub fn are_farther(a: &Box2, b: &Box2, d: u64) -> bool
    requires { d ≤ 4_000_000_000 }
    ensures { result ≡ are_farther d a.now b.now }
{
    let x = gap(eastward(a.high, b.low), eastward(b.high, a.low));
    let y = gap(northward(a.high, b.low), northward(b.high, a.low));
    d * d < square(x) + square(y)
}

/// The lesser of two coordinates, less a distance.
fn lowest(e: i32, f: i32, d: u64) -> i64
    requires { d ≤ 4_000_000_000 }
    ensures value { result ≡ int_min e f -ℤ pos d }
    ensures far { unsigned_abs result ≤ 8_000_000_000 }
{
    i64::from(e.min(f)) - d as i64
}

/// The greater of two coordinates, and a distance.
fn highest(e: i32, f: i32, d: u64) -> i64
    requires { d ≤ 4_000_000_000 }
    ensures value { result ≡ int_max e f +ℤ pos d }
    ensures far { unsigned_abs result ≤ 8_000_000_000 }
{
    i64::from(e.max(f)) + d as i64
}

/// Whether both coordinates are above a number.
fn are_above(z: i64, e: i32, f: i32) -> bool
    ensures { result ≡ (int_lt z e && int_lt z f) }
{
    z < i64::from(e) && z < i64::from(f)
}

/// Whether both coordinates are below a number.
fn are_below(z: i64, e: i32, f: i32) -> bool
    ensures { result ≡ (int_lt e z && int_lt f z) }
{
    i64::from(e) < z && i64::from(f) < z
}

/// The box of a segment, grown by a distance on each side.
#[derive(Clone, Copy)]
pub struct Reach {
    west: i64,
    east: i64,
    south: i64,
    north: i64,
}

impl Reach {
    /// What the segment from `a` to `b` reaches by `d`.
    pub fn of(a: Pos, b: Pos, d: u64) -> Reach
        requires { d ≤ 4_000_000_000 }
        ensures { result ≡ reach_of d (record { from = a; to = b }) }
    {
        Reach {
            west: lowest(a.x, b.x, d),
            east: highest(a.x, b.x, d),
            south: lowest(a.y, b.y, d),
            north: highest(a.y, b.y, d),
        }
    }

    /// Whether the segment from `e` to `f` lies west or east of it.
    fn is_short_by_x(&self, e: Pos, f: Pos) -> bool
        ensures { result ≡ are_aside self.now.west self.now.east e.x f.x }
    {
        are_above(self.east, e.x, f.x) || are_below(self.west, e.x, f.x)
    }

    /// Whether the segment from `e` to `f` lies south or north of it.
    fn is_short_by_y(&self, e: Pos, f: Pos) -> bool
        ensures { result ≡ are_aside self.now.south self.now.north e.y f.y }
    {
        are_above(self.north, e.y, f.y) || are_below(self.south, e.y, f.y)
    }

    /// Whether the segment from `e` to `f` lies beyond a side of it.
    #[tactic(auto, unfolding(crate::specs::Gaps::is_beyond))]
    pub fn is_short_of(&self, e: Pos, f: Pos) -> bool
        ensures { result ≡ is_beyond self.now (record { from = e; to = f }) }
    {
        self.is_short_by_x(e, f) || self.is_short_by_y(e, f)
    }
}
