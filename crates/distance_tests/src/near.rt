//! Whether an end of a segment is near another segment, by products alone: no number is rounded.
ghost use Rattle.std.specs.Prelude.{◌≡◌, ◌≤◌, ◌*◌, ◌-ℤ◌, ◌*ℤ◌, unsigned_abs, nat_le};
ghost use Rattle.distance_tests.specs.Within.{way, dot, cross, are_close, is_before, is_behind, is_abreast, is_line_close, is_near, are_near};

use geom_core::Pos;

/// How far the second position lies to greater x of the first.
pub fn eastward(from: Pos, to: Pos) -> i64
    ensures value { result ≡ to.x -ℤ from.x }
    ensures far { unsigned_abs result ≤ 2_000_000_000 }
{
    i64::from(to.x) - i64::from(from.x)
}

/// How far the second position lies to greater y of the first.
pub fn northward(from: Pos, to: Pos) -> i64
    ensures value { result ≡ to.y -ℤ from.y }
    ensures far { unsigned_abs result ≤ 2_000_000_000 }
{
    i64::from(to.y) - i64::from(from.y)
}

/// The product of two spans.
fn product(a: i64, b: i64) -> i64
    requires a { unsigned_abs a ≤ 2_000_000_000 }
    requires b { unsigned_abs b ≤ 2_000_000_000 }
    ensures value { result ≡ a *ℤ b }
    ensures far { unsigned_abs result ≤ 4_000_000_000_000_000_000 }
{
    a * b
}

/// The dot product of the ways from `o` to `p` and to `q`.
fn dot(o: Pos, p: Pos, q: Pos) -> i64
    ensures value { result ≡ dot (way o p) (way o q) }
    ensures far { unsigned_abs result ≤ 8_000_000_000_000_000_000 }
{
    let by_x = product(eastward(o, p), eastward(o, q));
    let by_y = product(northward(o, p), northward(o, q));
    by_x + by_y
}

/// The cross product of the ways from `o` to `p` and to `q`.
fn cross(o: Pos, p: Pos, q: Pos) -> i64
    ensures value { result ≡ cross (way o p) (way o q) }
    ensures far { unsigned_abs result ≤ 8_000_000_000_000_000_000 }
{
    let left = product(eastward(o, p), northward(o, q));
    let right = product(northward(o, p), eastward(o, q));
    left - right
}

/// Whether the positions lie within `d` of each other.
fn are_close(p: Pos, q: Pos, d: u64) -> bool
    requires { d ≤ 4_000_000_000 }
    ensures { result ≡ are_close d p q }
{
    dot(p, q, q).unsigned_abs() <= d * d
}

/// Whether the position lies before `a`, or level with it, on the way from `a` to `b`.
#[tactic(auto, unfolding(crate::specs::Within::is_before))]
fn is_before(p: Pos, a: Pos, b: Pos) -> bool
    ensures { result ≡ is_before p (record { from = a; to = b }) }
{
    dot(a, p, b) <= 0
}

/// Whether the position lies behind `b`, or level with it, on the way from `a` to `b`.
#[tactic(auto, unfolding(crate::specs::Within::is_behind))]
fn is_behind(p: Pos, a: Pos, b: Pos) -> bool
    ensures { result ≡ is_behind p (record { from = a; to = b }) }
{
    dot(a, b, b) <= dot(a, p, b)
}

/// Whether the position lies between `a` and `b`, on the way from the one to the other.
#[tactic(auto, unfolding(crate::specs::Within::is_abreast))]
fn is_abreast(p: Pos, a: Pos, b: Pos) -> bool
    ensures { result ≡ is_abreast p (record { from = a; to = b }) }
{
    let along = dot(a, p, b);
    0 < along && along < dot(a, b, b)
}

/// Whether the line through `a` and `b` passes within `d` of the position.
fn is_line_close(p: Pos, a: Pos, b: Pos, d: u64) -> bool
    requires { d ≤ 4_000_000_000 }
    ensures { result ≡ is_line_close d p (record { from = a; to = b }) }
{
    is_square_within(
        cross(a, p, b).unsigned_abs(),
        d,
        dot(a, b, b).unsigned_abs(),
    )
}

/// Whether the square of `across` is at most that of `d` times `length`. Both are below 2^127.
fn is_square_within(across: u64, d: u64, length: u64) -> bool
    requires across { across ≤ 8_000_000_000_000_000_000 }
    requires d { d ≤ 4_000_000_000 }
    requires length { length ≤ 8_000_000_000_000_000_000 }
    ensures { result ≡ nat_le (across * across) (d * d * length) }
{
    wide_product(across, across) <= wide_product(d * d, length)
}

/// The product of two numbers, whole.
fn wide_product(a: u64, b: u64) -> u128
    ensures { result ≡ a * b }
{
    u128::from(a) * u128::from(b)
}

/// Whether the position is near the segment from `a` to `b`.
#[tactic(auto, unfolding(crate::specs::Within::is_near))]
fn is_near(p: Pos, a: Pos, b: Pos, d: u64) -> bool
    requires { d ≤ 4_000_000_000 }
    ensures { result ≡ is_near d p (record { from = a; to = b }) }
{
    (is_before(p, a, b) && are_close(p, a, d))
        || ((is_behind(p, a, b) && are_close(p, b, d))
            || (is_abreast(p, a, b) && is_line_close(p, a, b, d)))
}

/// Whether an end of one of the segments from `a` to `b` and from `e` to `f` is near the other.
#[tactic(auto, unfolding(crate::specs::Within::are_near))]
pub fn are_near(a: Pos, b: Pos, e: Pos, f: Pos, d: u64) -> bool
    requires { d ≤ 4_000_000_000 }
    ensures { result ≡ are_near d (record { from = a; to = b }) (record { from = e; to = f }) }
{
    (is_near(a, e, f, d) || is_near(b, e, f, d)) || (is_near(e, a, b, d) || is_near(f, a, b, d))
}
