//! Features in a grid, each with the boxes of its geometries.

ghost use Rattle.std.specs.Prelude.{◌≡◌, ◌+◌, ◌≤◌, ◌++◌, List, IsTrue, OnOk};
ghost use Rattle.std.specs.List.{sum_by};
ghost use Rattle.grid_index.specs.Gridded.{pairs_at, room_at, HasNoLessRoom, IsGridOf};
ghost use Rattle.grid_index.specs.Near.{Placed};
ghost use Rattle.grid_index.specs.Places.{Place, taking};
ghost use Rattle.grid_index.specs.Room.{IsSpare};
ghost use Rattle.feature_versions.specs.Near.{boxes_in, boxes_of};
ghost use Rattle.feature_versions.specs.Placed.{placed, placed_in, taken_by, IsBoxedIn, AreBoxed};

use feature_values::{Feature, Rid, Value};
use geom_core::{Box2, bounds};
use grid_index::Grid;
use wfs_ends::Mem;

/// Adds the boxes of a feature to others.
pub(crate) fn push_boxes(boxes: &mut Vec<Box2>, feature: &Feature) -> Mem<()>
    ensures { OnOk result (boxes.new.items ≡ boxes.old.items ++ boxes_of feature.now) }
{
    for value in feature.items() {
        if let Value::Shape(shape) = value {
            boxes.push(bounds(shape))?;
        }
    }
    Ok(())
}

// Whether two values are geometries with the same box, or none is a geometry.
fn is_same_box(old: &Value, new: &Value) -> bool
    ensures same { IsTrue result → boxes_in old.now ≡ boxes_in new.now }
    ensures boxed { IsTrue result → IsBoxedIn new.now }
{
    match (old, new) {
        (Value::Shape(old), Value::Shape(new)) => bounds(old) == bounds(new),
        (Value::Shape(_), _) | (_, Value::Shape(_)) => false,
        _ => true,
    }
}

/// Whether a feature has the same boxes as another, value by value.
pub(crate) fn has_same_boxes(old: &Feature, new: &Feature) -> bool
    ensures same { IsTrue result → boxes_of old.now ≡ boxes_of new.now }
    ensures boxed { IsTrue result → AreBoxed new.now }
{
    let (olds, news) = (old.items(), new.items());
    if olds.len() != news.len() {
        return false;
    }
    for i in 0..news.len() {
        if !is_same_box(&olds[i], &news[i]) {
            return false;
        }
    }
    true
}

// Adds a feature with the box of a value, where it is a geometry.
fn add_box(grid: &mut Grid, id: Rid, value: &Value)
    requires { IsSpare (boxes_in value.now) grid.old }
    ensures pairs { (pairs : List Placed) → IsGridOf (pairs_at grid.old) pairs
        → IsGridOf (pairs_at grid.new) (pairs ++ placed id (boxes_in value.now)) }
    ensures room { (place : Place) → room_at grid.old.room place ≤ room_at grid.new.room place +
        sum_by (taking place) (boxes_in value.now) }
    ensures boxed { IsBoxedIn value.now }
{
    if let Value::Shape(shape) = value {
        grid.add(id, bounds(shape));
    }
}

// Takes out a feature with the box of a value, where it is a geometry.
fn remove_box(grid: &mut Grid, id: Rid, value: &Value)
    ensures pairs { (pairs : List Placed) → IsGridOf (pairs_at grid.old)
        (placed id (boxes_in value.now) ++ pairs) → IsGridOf (pairs_at grid.new) pairs }
    ensures room { HasNoLessRoom grid.old.room grid.new.room }
{
    if let Value::Shape(shape) = value {
        grid.remove(id, bounds(shape));
    }
}

/// Adds a feature with each of its boxes to a grid, which has room for them.
pub(crate) fn place(grid: &mut Grid, feature: &Feature)
    requires { IsSpare (boxes_of feature.now) grid.old }
    ensures pairs { (pairs : List Placed) → IsGridOf (pairs_at grid.old) pairs
        → IsGridOf (pairs_at grid.new) (pairs ++ placed_in feature.now) }
    ensures room { (at : Place) → room_at grid.old.room at ≤ room_at grid.new.room at + taken_by at
        feature.now }
    ensures boxed { AreBoxed feature.now }
{
    for value in feature.items() {
        add_box(grid, feature.id, value);
    }
}

/// Takes a feature with each of its boxes out of a grid, which has them.
pub(crate) fn displace(grid: &mut Grid, feature: &Feature)
    ensures pairs { (pairs : List Placed) → IsGridOf (pairs_at grid.old)
        (placed_in feature.now ++ pairs) → IsGridOf (pairs_at grid.new) pairs }
    ensures room { HasNoLessRoom grid.old.room grid.new.room }
{
    for value in feature.items() {
        remove_box(grid, feature.id, value);
    }
}
