//! Where positions lie in a long ring: its edges are taken in blocks, each beside a box that holds
//! it, and only a block whose box holds a position is walked for it.
ghost use Rattle.std.specs.Prelude.{◌≡◌, ◌+◌, ◌*◌, ◌<◌, length, int_lt};
ghost use Rattle.geom_core.specs.Plane.{least_box};
ghost use Rattle.geom_core.specs.Places.{place_of};
ghost use Rattle.geom_core.specs.Blocks.{block_at, AreBoxes, is_clear};

use crate::extent::least_box;
use crate::placing::{Place, place_in};
use crate::{Box2, Pos};

/// How many edges a block has.
const BLOCK: usize = 64;

/// How many blocks hold the edges of the longest ring.
pub const MOST_BLOCKS: usize = 157;

/// How many blocks hold these positions.
fn block_count(ring: &[Pos]) -> usize
    requires { length ring.now < 10_001 }
    ensures most { result < 158 }
    ensures all { length ring.now < 64 * result + 1 }
    ensures used { 64 * result < length ring.now + 64 }
{
    ring.len().div_ceil(BLOCK)
}

/// The positions of a block.
fn block_at(ring: &[Pos], number: usize) -> &[Pos]
    requires within { 64 * number < length ring.now }
    requires many { length ring.now < 10_001 }
    ensures value { result.now ≡ block_at number ring.now }
    ensures many { length result.now < 66 }
{
    let start = BLOCK * number;
    let end = ring.len().min(start + BLOCK + 1);
    &ring[start..end]
}

/// The least box of each block of a ring, at the block's number.
pub fn boxes_of(ring: &[Pos]) -> [Box2; MOST_BLOCKS]
    requires few { 0 < length ring.now }
    requires many { length ring.now < 10_001 }
    ensures { AreBoxes result ring.now }
{
    let mut boxes = [Box2::at(ring[0]); MOST_BLOCKS];
    for number in 0..block_count(ring) {
        boxes[number] = least_box(block_at(ring, number));
    }
    boxes
}

/// Where `p` lies in these positions of a ring, by the boxes of their blocks.
pub fn place_by_boxes(p: Pos, ring: &[Pos], boxes: &[Box2; MOST_BLOCKS]) -> Place
    requires boxes { AreBoxes boxes.now ring.now }
    requires many { length ring.now < 10_001 }
    ensures { result ≡ place_of p ring.now }
{
    let mut is_round = false;
    for number in 0..block_count(ring) {
        match place_in_block(p, block_at(ring, number), boxes[number]) {
            Place::On => return Place::On,
            Place::Within => is_round = !is_round,
            Place::Outside => {}
        }
    }
    if is_round {
        Place::Within
    } else {
        Place::Outside
    }
}

/// Where `p` lies in these positions, the least box of which is at hand. A block to greater x of
/// `p` is crossed an odd number of times where one of its ends is above `p` and the other is not.
fn place_in_block(p: Pos, block: &[Pos], bounds: Box2) -> Place
    requires few { 0 < length block.now }
    requires many { length block.now < 10_001 }
    requires bounds { bounds ≡ least_box block.now }
    ensures { result ≡ place_of p block.now }
{
    if is_clear(p, &bounds) {
        return Place::Outside;
    }
    if !is_before(p, &bounds) {
        return place_in(p, block);
    }
    if is_beneath(p, block[0]) == is_beneath(p, block[block.len() - 1]) {
        Place::Outside
    } else {
        Place::Within
    }
}

/// Whether a position lies to lesser x of the box.
fn is_before(p: Pos, bounds: &Box2) -> bool
    ensures { result ≡ int_lt p.x bounds.now.low.x }
{
    p.x < bounds.low.x
}

/// Whether a position lies below another.
fn is_beneath(p: Pos, other: Pos) -> bool
    ensures { result ≡ int_lt p.y other.y }
{
    p.y < other.y
}

/// Whether the ray from `p` to greater x meets no position of the box.
fn is_clear(p: Pos, bounds: &Box2) -> bool
    ensures { result ≡ is_clear p bounds.now }
{
    p.x > bounds.high.x || (p.y < bounds.low.y || p.y > bounds.high.y)
}
