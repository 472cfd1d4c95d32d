//! What the grid answers, each call with ample memory.

use feature_values::Rid;
use geom_core::{Box2, Pos};
use grid_index::Grid;
use std::alloc::Global;
use wfs_ends::{List, Mem};

// features 1 to 7 with boxes, and feature 8 twice with one box
static PLACED: [(u64, [i64; 4]); 9] = [
    (1, [0, 0, 1, 1]),
    (2, [70_000, 0, 70_000, 0]),
    (3, [-1, -1, -1, -1]),
    (4, [65_535, 65_535, 65_536, 65_536]),
    // 10 times 10 cells
    (5, [-300_000, 10_000_000, 300_000, 10_600_000]),
    // 8 times 8 cells
    (6, [0, 20_000_000, 524_287, 20_447_232]),
    // 65 cells in a row
    (7, [0, 30_000_000, 4_194_304, 30_000_000]),
    (8, [-65_536, 0, -65_536, 0]),
    (8, [-65_536, 0, -65_536, 0]),
];

static ASKED: [([i64; 4], &[u64]); 13] = [
    ([5, 5, 6, 6], &[1, 4, 5, 7]),
    ([65_535, 0, 65_536, 0], &[1, 2, 4, 5, 7]),
    ([-5, -5, -4, -4], &[3, 5, 7]),
    ([-65_537, 0, -65_537, 0], &[5, 7]),
    ([-65_536, 9, -65_536, 9], &[5, 7, 8]),
    // on both sides of 0
    ([-1, 0, 0, 0], &[1, 4, 5, 7, 8]),
    // more cells than there are places with pairs
    ([0, 0, 655_360, 0], &[1, 2, 4, 5, 7]),
    ([524_287, 20_000_000, 524_287, 20_000_000], &[5, 6, 7]),
    ([524_288, 20_000_000, 524_288, 20_000_000], &[5, 7]),
    // far from all but the wide boxes
    (
        [999_000_000, 999_000_000, 999_000_001, 999_000_001],
        &[5, 7],
    ),
    (
        [-1_000_000_000, -1_000_000_000, 1_000_000_000, 1_000_000_000],
        &[1, 2, 3, 4, 5, 6, 7, 8],
    ),
    // 256 times 256 cells, where no pair stands
    ([0, -900_005_888, 16_777_215, -883_228_673], &[5, 7]),
    // 21,846 times 3 cells, which are 65,538
    (
        [-715_849_728, -900_005_888, 715_849_727, -899_809_281],
        &[1, 2, 3, 4, 5, 6, 7, 8],
    ),
];

fn box_of(corners: &[i64; 4]) -> Option<Box2> {
    let low = Pos::new(corners[0], corners[1]).ok()?;
    let high = Pos::new(corners[2], corners[3]).ok()?;
    Box2::new(low, high).ok()
}

fn mark(number: u64) -> Rid {
    Rid { kind: 0, number }
}

fn put(alloc: Global, grid: &mut Grid, id: Rid, area: Box2) -> Mem<()> {
    let mut areas = Vec::new(alloc);
    areas.push(area)?;
    grid.reserve(&List::of(areas))?;
    grid.add(id, area);
    Ok(())
}

// The grid of the first so many of the pairs.
fn filled(alloc: Global, pairs: &[(u64, [i64; 4])]) -> Mem<Grid> {
    let mut grid = Grid::new(alloc);
    for (number, corners) in pairs {
        if let Some(area) = box_of(corners) {
            put(alloc, &mut grid, mark(*number), area)?;
        }
    }
    Ok(grid)
}

fn are_just(ids: &[Rid], numbers: &[u64]) -> bool {
    ids.len() == numbers.len() && numbers.iter().all(|n| ids.iter().any(|id| id.number == *n))
}

fn answers(alloc: Global, grid: &Grid, corners: &[i64; 4], numbers: &[u64]) -> Mem<bool> {
    match box_of(corners) {
        Some(area) => {
            let ids = grid.near(alloc, &area)?;
            Ok(are_just(ids.items(), numbers))
        }
        None => Ok(false),
    }
}

// The first row that the grid answers otherwise.
fn first_wrong(alloc: Global, grid: &Grid) -> Mem<Option<usize>> {
    for (i, (corners, numbers)) in ASKED.iter().enumerate() {
        if !answers(alloc, grid, corners, numbers)? {
            return Ok(Some(i));
        }
    }
    Ok(None)
}

fn first_wrong_of_all(alloc: Global) -> Mem<Option<usize>> {
    let grid = filled(alloc, &PLACED)?;
    first_wrong(alloc, &grid)
}

#[test]
fn all_rows_hold(rt: HostRuntime) {
    assert_eq!(rt; first_wrong_of_all(rt.alloc()), Ok(None));
}

fn two_marks_hold(alloc: Global) -> Mem<bool> {
    let grid = filled(alloc, &PLACED[..2])?;
    answers(alloc, &grid, &[5, 5, 6, 6], &[1])
}

#[test]
fn the_mark_in_the_next_cell_is_left_out(rt: HostRuntime) {
    assert_eq!(rt; two_marks_hold(rt.alloc()), Ok(true));
}

fn remove(grid: &mut Grid, pair: &(u64, [i64; 4])) {
    if let Some(area) = box_of(&pair.1) {
        grid.remove(mark(pair.0), area);
    }
}

// What is near the box of a pair that stands twice, after one is removed, and after the other is.
fn twice_removed_hold(alloc: Global) -> Mem<bool> {
    let mut grid = filled(alloc, &PLACED[7..])?;
    remove(&mut grid, &PLACED[8]);
    let once = answers(alloc, &grid, &PLACED[8].1, &[8])?;
    remove(&mut grid, &PLACED[8]);
    remove(&mut grid, &PLACED[8]);
    Ok(once && answers(alloc, &grid, &PLACED[8].1, &[])?)
}

#[test]
fn one_of_two_equal_pairs_is_removed(rt: HostRuntime) {
    assert_eq!(rt; twice_removed_hold(rt.alloc()), Ok(true));
}

// features 1 to 3 in one cell, the second in three others besides
static TOGETHER: [(u64, [i64; 4]); 3] = [
    (1, [0, 0, 1, 1]),
    (2, [65_535, 65_535, 65_536, 65_536]),
    (3, [7, 7, 7, 7]),
];

// Which are left after a pair was removed.
static LEFT: [((u64, [i64; 4]), &[u64]); 5] = [
    ((1, [0, 0, 1, 1]), &[2, 3]),
    ((2, [65_535, 65_535, 65_536, 65_536]), &[1, 3]),
    ((3, [7, 7, 7, 7]), &[1, 2]),
    // a feature that is there with another box, and a box that another feature has
    ((3, [7, 7, 7, 8]), &[1, 2, 3]),
    ((9, [7, 7, 7, 7]), &[1, 2, 3]),
];

fn first_wrong_left(alloc: Global) -> Mem<Option<usize>> {
    for (i, (pair, left)) in LEFT.iter().enumerate() {
        let mut grid = filled(alloc, &TOGETHER)?;
        remove(&mut grid, pair);
        if !answers(alloc, &grid, &[5, 5, 6, 6], left)? {
            return Ok(Some(i));
        }
    }
    Ok(None)
}

#[test]
fn the_others_of_a_cell_stay(rt: HostRuntime) {
    assert_eq!(rt; first_wrong_left(rt.alloc()), Ok(None));
}

// Features of two types under one number, in one place: how many are near, and how many after one was removed.
fn two_types_hold(alloc: Global) -> Mem<(usize, usize)> {
    let mut grid = filled(alloc, &TOGETHER[..1])?;
    let Some(area) = box_of(&TOGETHER[0].1) else {
        return Ok((0, 0));
    };
    let other = Rid { kind: 1, number: 1 };
    put(alloc, &mut grid, other, area)?;
    let both = grid.near(alloc, &area)?.items().len();
    grid.remove(other, area);
    Ok((both, grid.near(alloc, &area)?.items().len()))
}

#[test]
fn features_of_two_types_are_two(rt: HostRuntime) {
    assert_eq!(rt; two_types_hold(rt.alloc()), Ok((2, 1)));
}

static MOVED: [(u64, [i64; 4]); 2] = [(1, [200_000, 0, 200_000, 0]), (2, [400_000, 0, 400_000, 0])];

// Two of three places are left and swept, and the third keeps its mark. Then a mark comes to one of the two again.
fn swept_hold(alloc: Global) -> Mem<bool> {
    let mut grid = filled(alloc, &TOGETHER)?;
    for pair in &TOGETHER {
        remove(&mut grid, pair);
    }
    for pair in &MOVED {
        if let Some(area) = box_of(&pair.1) {
            put(alloc, &mut grid, mark(pair.0), area)?;
        }
    }
    remove(&mut grid, &MOVED[0]);
    grid.sweep();
    let left = answers(alloc, &grid, &TOGETHER[0].1, &[])?;
    let there = answers(alloc, &grid, &MOVED[1].1, &[2])?;
    if let Some(area) = box_of(&TOGETHER[2].1) {
        put(alloc, &mut grid, mark(9), area)?;
    }
    Ok(left && there && answers(alloc, &grid, &TOGETHER[0].1, &[9])?)
}

#[test]
fn places_that_were_left_are_swept(rt: HostRuntime) {
    assert_eq!(rt; swept_hold(rt.alloc()), Ok(true));
}
