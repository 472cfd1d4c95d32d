//! Where a position lies in a ring: the walk along all of its edges.
ghost use Rattle.std.specs.Prelude.{◌≡◌, ◌<◌, length};
ghost use Rattle.geom_core.specs.Rings.{edges_from};
ghost use Rattle.geom_core.specs.Places.{place_of, place_among};

use crate::sides::{is_crossed, is_on};
use crate::{Pos, Ring};

/// Where a position lies in a ring: on an edge, or else within or outside by the count of edges
/// that the ray from it to greater x crosses.
#[derive(Clone, Copy, Debug, PartialEq, Eq)]
pub enum Place {
    On,
    Within,
    Outside,
}

/// Where `p` lies in these positions of a ring.
pub fn place_in(p: Pos, ring: &[Pos]) -> Place
    requires few { 0 < length ring.now }
    requires many { length ring.now < 10_001 }
    ensures { result ≡ place_of p ring.now }
{
    walk(p, ring[0], &ring[1..])
}

/// Where `p` lies in the path from `last` through these positions.
fn walk(p: Pos, mut last: Pos, path: &[Pos]) -> Place
    requires { length path.now < 10_000 }
    ensures { result ≡ place_among p (edges_from last path.now) }
{
    let mut crossed: usize = 0;
    for next in path {
        if is_on(p, last, *next) {
            return Place::On;
        }
        if is_crossed(p, last, *next) {
            crossed += 1;
        }
        last = *next;
    }
    if crossed % 2 == 1 {
        Place::Within
    } else {
        Place::Outside
    }
}
