//! The features of one type: their rows, and a grid of their boxes.

ghost use Rattle.std.specs.Prelude.{◌≡◌, ◌+◌, ◌≤◌, ◌++◌, [], true, Some, None, All, IsTrue, IfOk, OnOk, length, flat_map, slice_get};
ghost use Rattle.std.specs.List.{sum_by};
ghost use Rattle.std.specs.Option.{option_copied};
ghost use Rattle.fes_filter.specs.View.{is_before, feature_at, next_after, HasAllNear, IsOnce};
ghost use Rattle.feature_overlay.specs.Laid.{laid};
ghost use Rattle.grid_index.specs.Gridded.{room_at, HasNoLessRoom};
ghost use Rattle.grid_index.specs.Places.{Place, taking};
ghost use Rattle.feature_versions.specs.Near.{boxes_of, most_near};
ghost use Rattle.feature_versions.specs.Placed.{taken_by, AreBoxed, HasSameBoxes};
ghost use Rattle.feature_versions.specs.Rows.{live_in, live, IsOwn, AreRows};
ghost use Rattle.feature_versions.specs.Types.{IsAlike, IsRoomier};

use crate::boxes::{displace, has_same_boxes, place, push_boxes};
use crate::rows::{
    Row, feature_behind, feature_from, feature_in, first_live, put, sweep, take_out,
};
use feature_values::{Feature, Rid};
use geom_core::Box2;
use grid_index::Grid;
use std::alloc::Global;
use std::marker::Model;
use wfs_ends::{List, Mem};

// The boxes of the features of rows.
fn all_boxes(alloc: Global, rows: &[Row]) -> Mem<List<Box2>>
    ensures { IfOk result (λ boxes. boxes ≡ flat_map boxes_of (live rows.now)) }
{
    let mut boxes = Vec::new(alloc);
    for row in rows {
        if let Some(feature) = &row.feature {
            push_boxes(&mut boxes, feature)?;
        }
    }
    Ok(List::of(boxes))
}

// Whether rows have a feature with the identifier and the boxes of another, so that the grid may stay as it is.
fn is_placed(rows: &[Row], feature: &Feature) -> bool
    requires { AreRows feature.now.id.kind rows.now }
    ensures same { IsTrue result → HasSameBoxes (feature_at feature.now.id (live rows.now))
        feature.now }
    ensures boxed { IsTrue result → AreBoxed feature.now }
{
    match feature_in(rows, feature.id) {
        Some(old) => has_same_boxes(old, feature),
        None => false,
    }
}

/// The features of one type, by number.
#[derive(Drop)]
pub(crate) struct Layer {
    kind: u32,
    rows: Vec<Row>,
    // no row before this place has a feature
    first: usize,
    // how many rows have a feature
    count: usize,
    grid: Grid,
}

impl Model for Layer {
    ghost use Rattle.std.specs.Prelude.{◌-◌};
    ghost use Rattle.std.specs.Vec.{vec_len, vec_capacity};
    ghost use Rattle.feature_versions.specs.Rows.{live};
    ghost use Rattle.feature_versions.specs.Layer.{Layered, IsLayerFrom};

    ghost Value = { Layered };

    ghost view = { λ l. record {
      kind = l.kind;
      features = live l.rows.items;
      rows = vec_capacity l.rows - vec_len l.rows;
      places = l.grid.room;
    } };

    ghost invariant = { λ l. IsLayerFrom l.first l.kind l.rows.items l.count l.grid };
}

impl Layer {
    /// No features of a type. It takes no memory.
    pub(crate) fn new(alloc: Global, kind: u32) -> Layer
        ensures kind { result.kind ≡ kind }
        ensures features { result.features ≡ [] }
    {
        Layer {
            kind,
            rows: Vec::new(alloc),
            first: 0,
            count: 0,
            grid: Grid::new(alloc),
        }
    }

    /// How many features there are.
    pub(crate) fn count(&self) -> usize
        ensures { result ≡ length self.now.features }
    {
        self.count
    }

    /// The feature with this identifier.
    pub(crate) fn get(&self, id: Rid) -> Option<&Feature>
        requires { id.kind ≡ self.now.kind }
        ensures { option_copied result ≡ feature_at id self.now.features }
    {
        feature_in(self.rows.as_slice(), id)
    }

    /// The first feature, and the place behind it.
    pub(crate) fn first(&self) -> (Option<&Feature>, usize)
        ensures { option_copied result.0 ≡ slice_get self.now.features 0 }
    {
        feature_from(self.rows.as_slice(), self.first)
    }

    /// The first feature behind an identifier, which need not be there, and the place behind it. A guess is looked at first.
    pub(crate) fn behind(&self, id: Rid, guess: usize) -> (Option<&Feature>, usize)
        requires { id.kind ≡ self.now.kind }
        ensures { option_copied result.0 ≡ next_after (Some id) self.now.features }
    {
        feature_behind(self.rows.as_slice(), id, guess)
    }

    /// Makes room for so many more features with these boxes.
    pub(crate) fn reserve(&mut self, more: usize, boxes: &List<Box2>) -> Mem<()>
        ensures same { IsAlike self.old self.new }
        ensures roomier { IsRoomier self.old self.new }
        ensures rows { OnOk result (more ≤ self.new.rows) }
        ensures places { OnOk result ((place : Place)
            → sum_by (taking place) boxes.now ≤ room_at self.new.places place) }
    {
        self.rows.reserve(more)?;
        self.grid.reserve(boxes)
    }

    /// Puts a feature of the type, for which there is room.
    pub(crate) fn put(&mut self, feature: Feature)
        requires kind { feature.id.kind ≡ self.old.kind }
        requires rows { 1 ≤ self.old.rows }
        requires places { (place : Place) → taken_by place feature ≤ room_at self.old.places place }
        ensures kind { self.new.kind ≡ self.old.kind }
        ensures features { self.new.features ≡ laid self.old.features feature.id (Some feature) }
        ensures rows { self.old.rows ≤ self.new.rows + 1 }
        ensures places { (place : Place) → room_at self.old.places place ≤ room_at self.new.places
            place + taken_by place feature }
    {
        if is_placed(self.rows.as_slice(), &feature) {
            let (_, place) = put(&mut self.rows, feature);
            self.first = place.min(self.first);
            return;
        }
        place(&mut self.grid, &feature);
        let (old, place) = put(&mut self.rows, feature);
        self.first = self.first.min(place);
        match old {
            Some(old) => displace(&mut self.grid, &old),
            None => self.count += 1,
        }
    }

    /// Takes out the feature of the type with an identifier, where there is one.
    pub(crate) fn remove(&mut self, id: Rid)
        requires { id.kind ≡ self.old.kind }
        ensures kind { self.new.kind ≡ self.old.kind }
        ensures features { self.new.features ≡ laid self.old.features id None }
        ensures rows { self.old.rows ≤ self.new.rows }
        ensures places { HasNoLessRoom self.old.places self.new.places }
    {
        if let Some(old) = take_out(&mut self.rows, id) {
            displace(&mut self.grid, &old);
            self.count -= 1;
            // each sweep goes over at most twice the rows whose features went since the last one
            if self.count < self.rows.len() / 2 {
                sweep(&mut self.rows);
                self.first = 0;
            } else {
                self.first = first_live(self.rows.as_slice(), self.first);
            }
        }
    }

    /// Forgets the places of the grid that no box takes any more, if they are more than the others. Room may be lost there.
    pub(crate) fn sweep(&mut self)
        ensures { IsAlike self.old self.new }
    {
        self.grid.sweep();
    }

    // Puts a copy of the feature of a row behind all others, where it has one. There is room for it.
    fn put_copy(&mut self, alloc: Global, row: &Row) -> Mem<()>
        requires own { IsOwn self.old.kind row.now }
        requires last { All (λ f. is_before f.id
            (record { kind = self.old.kind; number = row.now.number }) ≡ true) self.old.features }
        requires rows { length (live_in row.now) ≤ self.old.rows }
        requires places { (place : Place) → sum_by (taken_by place) (live_in row.now) ≤ room_at
            self.old.places place }
        ensures kind { self.new.kind ≡ self.old.kind }
        ensures features { OnOk result (self.new.features ≡ self.old.features ++ live_in row.now) }
        ensures rows { OnOk result (self.old.rows ≤ self.new.rows + length (live_in row.now)) }
        ensures places { OnOk result ((place : Place)
            → room_at self.old.places place ≤ room_at self.new.places place + sum_by
            (taken_by place) (live_in row.now)) }
    {
        if let Some(feature) = &row.feature {
            self.put(feature.copy(alloc)?);
        }
        Ok(())
    }

    /// The same features of the same type.
    pub(crate) fn copy(&self, alloc: Global) -> Mem<Layer>
        ensures { IfOk result (λ layer. IsAlike self.now layer) }
    {
        let rows = self.rows.as_slice();
        let mut layer = Layer::new(alloc, self.kind);
        layer.reserve(self.count, &all_boxes(alloc, rows)?)?;
        for row in rows {
            layer.put_copy(alloc, row)?;
        }
        Ok(layer)
    }

    /// The features with a box near another by the cells of the grid.
    pub(crate) fn near(&self, alloc: Global, area: &Box2) -> Mem<List<Rid>>
        ensures whole { IfOk result (λ ids. HasAllNear self.now.kind area.now self.now.features
            ids) }
        ensures once { IfOk result (λ ids. IsOnce ids) }
        ensures few { IfOk result (λ ids. length ids ≤ most_near self.now.features self.now.kind
            area.now) }
    {
        let _low = area.low;
        self.grid.near(alloc, area)
    }
}
