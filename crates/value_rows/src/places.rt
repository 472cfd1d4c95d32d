//! Places in the plane, and the paths and boxes of them, of which the shapes of the rows are made.

use geom_core::Pos;
use std::alloc::Global;
use wfs_ends::Mem;

/// The greatest coordinate.
pub const FAR: i64 = 1_000_000_000;

/// What is to be a position: x and y.
pub type Place = (i64, i64);

/// The position at a place, if there is one.
pub fn at(place: Place) -> Option<Pos> {
    Pos::new(place.0, place.1).ok()
}

/// The positions at some places.
pub fn path(alloc: Global, places: &[Place]) -> Mem<Vec<Pos>> {
    let mut all = Vec::new(alloc);
    for place in places {
        if let Some(p) = at(*place) {
            all.push(p)?;
        }
    }
    Ok(all)
}

/// The ring round a box.
pub fn sides(low: Place, high: Place) -> [Place; 5] {
    [low, (high.0, low.1), high, (low.0, high.1), low]
}

/// The ring round the square between these corners.
pub fn square(low: i64, high: i64) -> [Place; 5] {
    sides((low, low), (high, high))
}
