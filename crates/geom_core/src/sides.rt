//! Exact predicates on positions and segments, by the sign of one cross product.
ghost use Rattle.std.specs.Prelude.{◌≡◌, ◌-ℤ◌, ◌*ℤ◌, ◌≤◌, unsigned_abs, pos, int_lt};
ghost use Rattle.std.specs.Ordering.{int_eq};
ghost use Rattle.geom_core.specs.Segments.{sign, is_between, is_beside, is_on, are_opposite, do_cross, do_touch, do_meet};
ghost use Rattle.geom_core.specs.Rings.{spans_height, rises_past, is_crossed};

use crate::{Box2, Pos};

/// On which side of the line from `a` to `b` the position `c` lies: 1 on the left, -1 on the
/// right, 0 on the line. It is exact: it compares two products of at most 4 * 10^18.
pub fn orient(a: Pos, b: Pos, c: Pos) -> i32
    ensures { result ≡ sign a b c }
{
    let left = product(eastward(a, b), northward(a, c));
    let right = product(northward(a, b), eastward(a, c));
    if left > right {
        1
    } else if left < right {
        -1
    } else {
        0
    }
}

/// How far the second position lies to greater x of the first.
fn eastward(from: Pos, to: Pos) -> i64
    ensures value { result ≡ to.x -ℤ from.x }
    ensures far { unsigned_abs result ≤ 2_000_000_000 }
{
    i64::from(to.x) - i64::from(from.x)
}

/// How far the second position lies to greater y of the first.
fn northward(from: Pos, to: Pos) -> i64
    ensures value { result ≡ to.y -ℤ from.y }
    ensures far { unsigned_abs result ≤ 2_000_000_000 }
{
    i64::from(to.y) - i64::from(from.y)
}

/// The product of two spans.
fn product(a: i64, b: i64) -> i64
    requires a { unsigned_abs a ≤ 2_000_000_000 }
    requires b { unsigned_abs b ≤ 2_000_000_000 }
    ensures { result ≡ a *ℤ b }
{
    a * b
}

/// Whether a number lies between two others, these included.
#[tactic(auto, unfolding(crate::specs::Segments::is_between))]
fn is_between(z: i32, a: i32, b: i32) -> bool
    ensures { result ≡ is_between z a b }
{
    if a < b {
        a <= z && z <= b
    } else {
        b <= z && z <= a
    }
}

/// Whether a position lies within the bounds of the segment from `a` to `b`.
#[tactic(auto, unfolding(crate::specs::Segments::is_beside))]
pub fn is_beside(p: Pos, a: Pos, b: Pos) -> bool
    ensures { result ≡ is_beside p (record { from = a; to = b }) }
{
    is_between(p.x, a.x, b.x) && is_between(p.y, a.y, b.y)
}

/// Whether a position lies on the segment from `a` to `b`.
#[tactic(auto, unfolding(crate::specs::Segments::is_on))]
pub fn is_on(p: Pos, a: Pos, b: Pos) -> bool
    ensures { result ≡ is_on p (record { from = a; to = b }) }
{
    is_beside(p, a, b) && is_in_line(p, a, b)
}

/// Whether a position lies on the line through `a` and `b`.
fn is_in_line(p: Pos, a: Pos, b: Pos) -> bool
    ensures { result ≡ int_eq (sign a b p) (pos 0) }
{
    orient(a, b, p) == 0
}

/// Whether a position lies on the left of the line from `a` to `b`.
fn is_left(p: Pos, a: Pos, b: Pos) -> bool
    ensures { result ≡ int_lt (pos 0) (sign a b p) }
{
    orient(a, b, p) > 0
}

/// Whether `low` is at the height of `p` or below it, and `high` above it.
fn spans_height(p: Pos, low: Pos, high: Pos) -> bool
    ensures { result ≡ spans_height p.y low high }
{
    low.y <= p.y && p.y < high.y
}

/// Whether the edge from `low` to `high` rises past the height of `p`, with `p` on its left.
#[tactic(auto, unfolding(crate::specs::Rings::rises_past))]
fn rises_past(p: Pos, low: Pos, high: Pos) -> bool
    ensures { result ≡ rises_past p low high }
{
    spans_height(p, low, high) && is_left(p, low, high)
}

/// Whether the ray from `p` to greater x crosses the edge from `a` to `b`.
#[tactic(auto, unfolding(crate::specs::Rings::is_crossed))]
pub fn is_crossed(p: Pos, a: Pos, b: Pos) -> bool
    ensures { result ≡ is_crossed p (record { from = a; to = b }) }
{
    rises_past(p, a, b) || rises_past(p, b, a)
}

/// Whether two signs are opposite, and neither is 0.
#[tactic(auto, unfolding(crate::specs::Segments::are_opposite))]
fn are_opposite(s: i32, t: i32) -> bool
    ensures { result ≡ are_opposite s t }
{
    (s < 0 && t > 0) || (s > 0 && t < 0)
}

/// Whether `c` and `d` lie on different sides of the line through `a` and `b`, and none on it.
fn are_parted(a: Pos, b: Pos, c: Pos, d: Pos) -> bool
    ensures { result ≡ are_opposite (sign a b c) (sign a b d) }
{
    are_opposite(orient(a, b, c), orient(a, b, d))
}

/// Whether the ends of each of the segments from `a` to `b` and from `c` to `d` lie on different
/// sides of the other's line.
#[tactic(auto, unfolding(crate::specs::Segments::do_cross))]
fn do_cross(a: Pos, b: Pos, c: Pos, d: Pos) -> bool
    ensures { result ≡ do_cross (record { from = a; to = b }) (record { from = c; to = d }) }
{
    are_parted(a, b, c, d) && are_parted(c, d, a, b)
}

/// Whether an end of one of the segments lies on the other.
#[tactic(auto, unfolding(crate::specs::Segments::do_touch))]
fn do_touch(a: Pos, b: Pos, c: Pos, d: Pos) -> bool
    ensures { result ≡ do_touch (record { from = a; to = b }) (record { from = c; to = d }) }
{
    (is_on(a, c, d) || is_on(b, c, d)) || (is_on(c, a, b) || is_on(d, a, b))
}

/// Whether the segments from `a` to `b` and from `c` to `d` share a position: an end of one lies on
/// the other, or they cross. Their bounds are compared first. It does not matter which segment is
/// named first.
#[tactic(auto, unfolding(crate::specs::Segments::do_meet))]
pub fn segments_meet(a: Pos, b: Pos, c: Pos, d: Pos) -> bool
    ensures value { result ≡ do_meet (record { from = a; to = b }) (record { from = c; to = d }) }
    ensures symmetric { result ≡ do_meet (record { from = c; to = d })
        (record { from = a; to = b }) }
{
    if Box2::between(a, b).is_apart(&Box2::between(c, d)) {
        return false;
    }
    do_touch(a, b, c, d) || do_cross(a, b, c, d)
}
