//! The cells that a box covers, and how many they are.

ghost use Rattle.std.specs.Prelude.{◌≡◌, ◌<◌, ◌≤◌, ◌*◌, ◌||◌, int_lt, pos, ◌+ℤ◌, unsigned_abs};
ghost use Rattle.geom_core.specs.Plane.{IsUpright};
ghost use Rattle.grid_index.specs.Cells.{cell_of, span, cell_count, cell_at, is_wide, is_huge, share_cell, is_near};
ghost use Rattle.grid_index.specs.Room.{places};

use geom_core::{Box2, Pos};

// The side of a cell.
const SIDE: i32 = 65_536;

// A box over more cells than this stands on the wide list.
const MOST_CELLS: usize = 64;

// For a box over more cells than this every feature is near.
const MOST_ASKED: usize = 65_536;

#[tactic(auto, unfolding(crate::specs::Cells::cell_of))]
fn cell_of(z: i32) -> i32
    ensures value { result ≡ cell_of z }
    ensures bound { unsigned_abs result ≤ 32_768 }
{
    z.div_euclid(SIDE)
}

fn span(low: i32, high: i32) -> usize
    requires { (unsigned_abs low ≤ 32_768) × (unsigned_abs high ≤ 32_768) }
    ensures value { result ≡ span low high }
    ensures bound { result ≤ 65_537 }
{
    high.abs_diff(low) as usize + 1
}

fn product(a: usize, b: usize) -> usize
    requires { (a ≤ 65_537) × (b ≤ 65_537) }
    ensures { result ≡ a * b }
{
    a * b
}

fn columns(area: &Box2) -> usize
    ensures value { result ≡ span (cell_of area.now.low.x) (cell_of area.now.high.x) }
    ensures bound { result ≤ 65_537 }
{
    span(cell_of(area.low.x), cell_of(area.high.x))
}

fn rows(area: &Box2) -> usize
    ensures value { result ≡ span (cell_of area.now.low.y) (cell_of area.now.high.y) }
    ensures bound { result ≤ 65_537 }
{
    span(cell_of(area.low.y), cell_of(area.high.y))
}

pub fn cell_count(area: &Box2) -> usize
    ensures count { result ≡ cell_count area.now }
    ensures upright { IsUpright area.now }
{
    let _low = area.low;
    product(columns(area), rows(area))
}

// The cell so many steps above another.
fn above(low: i32, steps: usize) -> i32
    requires { (unsigned_abs low ≤ 32_768) × (steps ≤ 65_537) }
    ensures { result ≡ low +ℤ pos steps }
{
    low + steps as i32
}

// The cell of the low corner. Most boxes cover no other.
fn first_cell(area: &Box2) -> (i32, i32)
    ensures { result ≡ (cell_of area.now.low.x, cell_of area.now.low.y) }
{
    (cell_of(area.low.x), cell_of(area.low.y))
}

// The cell of a number among those that a box covers, column by column.
#[tactic(auto, unfolding(crate::specs::Cells::cell_at))]
pub fn cell_at(area: &Box2, i: usize) -> (i32, i32)
    requires { i < cell_count area.now }
    ensures { result ≡ cell_at area.now i }
{
    if i == 0 {
        return first_cell(area);
    }
    let (_columns, rows) = (columns(area), rows(area));
    (
        above(cell_of(area.low.x), i / rows),
        above(cell_of(area.low.y), i % rows),
    )
}

#[tactic(auto, unfolding(crate::specs::Cells::is_wide))]
pub fn is_wide(area: &Box2) -> bool
    ensures { result ≡ is_wide area.now }
{
    MOST_CELLS < cell_count(area)
}

#[tactic(auto, unfolding(crate::specs::Cells::is_huge))]
pub fn is_huge(area: &Box2) -> bool
    ensures { result ≡ is_huge area.now }
{
    MOST_ASKED < cell_count(area)
}

// How many places a box takes in a grid.
#[tactic(auto, unfolding(crate::specs::Room::places, crate::specs::Cells::is_wide))]
pub fn places(area: &Box2) -> usize
    ensures value { result ≡ places area.now }
    ensures bound { result ≤ 64 }
    ensures some { 1 ≤ result }
    ensures upright { IsUpright area.now }
{
    let count = cell_count(area);
    if MOST_CELLS < count { 1 } else { count }
}

fn is_beyond(low: Pos, high: Pos) -> bool
    ensures { result ≡ (int_lt (cell_of high.x) (cell_of low.x) || int_lt (cell_of high.y)
        (cell_of low.y)) }
{
    cell_of(low.x) > cell_of(high.x) || cell_of(low.y) > cell_of(high.y)
}

#[tactic(auto, unfolding(crate::specs::Cells::share_cell, geom_core::specs::Plane::are_apart))]
pub fn share_cell(a: &Box2, b: &Box2) -> bool
    ensures { result ≡ share_cell a.now b.now }
{
    !(is_beyond(a.low, b.high) || is_beyond(b.low, a.high))
}

// Whether a box is near another by the grid.
pub fn is_near(asked: &Box2, area: &Box2) -> bool
    ensures { result ≡ is_near asked.now area.now }
{
    is_huge(asked) || is_wide(area) || share_cell(area, asked)
}
