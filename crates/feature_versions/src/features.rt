//! What outlives the process: the features, the counters, the stored queries and the number of the opening.

ghost use Rattle.std.specs.Prelude.{◌≡◌, ◌==◌, ◌&&◌, IfOk, OnOk, true, length, get_or, replicate};
ghost use Rattle.std.specs.List.{list_all};
ghost use Rattle.wfs_model.specs.declared.change.Change.TheVariants.{Opening, Rows, Created, Dropped, Base};
ghost use Rattle.wfs_model.specs.Kept.{IsKept};
ghost use Rattle.wfs_model.specs.Playable.{AreQueriesOf, is_playable};
ghost use Rattle.wfs_model.specs.Played.{played_one};
ghost use Rattle.wfs_model.specs.State.{nothing};
ghost use Rattle.feature_versions.specs.Reserved.{IsReserved};

use crate::accepting::{are_counters, are_named, are_new, are_parts, are_zero, is_next};
use crate::layer::Layer;
use crate::playing::play_rows;
use crate::reserving::{needs_of, reserve_all};
use crate::{layers, storing};
use feature_values::Schema;
use std::alloc::Global;
use std::marker::Model;
use stored_queries::{Stored, is_there};
use wfs_ends::{List, Mem, OutOfMemory, Text};
use wfs_model::{Change, Part, StoredQuery};

/// What outlives the process. Contracts see the schema, what is kept, with the features in default order, and for how much more
/// there is room.
#[derive(Drop)]
pub struct Features {
    alloc: Global,
    schema: Schema,
    // each type's at its place
    pub(crate) layers: Vec<Layer>,
    // how many numbers were given, by type
    counters: List<u64>,
    stored: Stored,
    opening: u64,
}

impl Model for Features {
    ghost use Rattle.std.specs.Coded.{codes};
    ghost use Rattle.fes_filter.specs.contracts.filter.Filter as filter_row;
    ghost use Rattle.feature_versions.specs.Holding.{Holding};
    ghost use Rattle.feature_versions.specs.Held.{kept_in, room_in, IsHeld};

    ghost Value = { Holding };

    ghost coded = { Prim.hlevel (codes, filter_row.the_row.coded) };

    ghost view = { λ f. record {
      schema = f.schema;
      kept = kept_in f.layers.items f.counters f.stored.list f.opening;
      room = room_in f.layers.items f.stored.spare;
    } };

    ghost invariant = { λ f. IsHeld f.schema f.layers.items
        (kept_in f.layers.items f.counters f.stored.list f.opening) };
}

// No number was given of any type.
fn no_numbers(alloc: Global, types: usize) -> Mem<List<u64>>
    ensures { IfOk result (λ counters. counters ≡ replicate types 0) }
{
    let mut counters = Vec::with_capacity(alloc, types)?;
    for _ in 0..types {
        counters.push(0)?;
    }
    Ok(List::of(counters))
}

impl Features {
    /// Nothing yet, with this schema.
    pub fn new(alloc: Global, schema: &Schema) -> Mem<Features>
        ensures schema { IfOk result (λ features. features.schema ≡ schema.now) }
        ensures kept { IfOk result (λ features. features.kept ≡ nothing (length schema.now.types)) }
    {
        let schema = schema.copy(alloc)?;
        let types = schema.types.items().len();
        let layers = layers::no_layers(alloc, types)?;
        let counters = no_numbers(alloc, types)?;
        Ok(Features {
            alloc,
            schema,
            layers,
            counters,
            stored: Stored::new(alloc),
            opening: 0,
        })
    }

    // Whether nothing is kept yet.
    fn is_new(&self) -> bool
        ensures { result ≡ (((length self.now.kept.features == 0) &&
            (length self.now.kept.stored == 0)) &&
            ((self.now.kept.opening == 0) && list_all (λ n. n == 0) self.now.kept.counters)) }
    {
        (self.count() == 0 && self.stored.list().is_empty())
            && (self.opening == 0 && are_zero(self.counters.items()))
    }

    /// Whether a change may be played: an opening has the next number, a feature that is put is such as the schema allows, under a number
    /// from 1 to 1,000,000,000,000, what is removed or dropped is there, stored queries have new identifiers and names of parameters, and a
    /// checkpoint's beginning comes before all else. `OutOfMemory`: memory ran out.
    #[tactic(auto, unfolding(wfs_model::specs::Playable::is_playable))]
    pub fn accepts(&self, alloc: Global, change: &Change) -> Mem<bool>
        ensures { IfOk result (λ yes. yes ≡ is_playable self.now.schema self.now.kept change.now) }
    {
        match change {
            Change::Opening(opening) => Ok(is_next(*opening, self.opening)),
            Change::Rows(parts) => are_parts(alloc, self, &self.schema, parts.items()),
            Change::Created(queries) => {
                let queries = queries.items();
                Ok(are_new(self.stored.list(), queries) && are_named(queries))
            }
            Change::Dropped(id) => Ok(is_there(self.stored.list(), id.as_str())),
            Change::Base { counters, .. } => {
                let types = self.schema.types.items().len();
                Ok(self.is_new() && are_counters(counters.items(), types))
            }
        }
    }

    // Takes the memory for parts.
    fn reserve_rows(&mut self, parts: &List<Part>) -> Mem<()>
        ensures reserved { OnOk result (IsReserved (Rows parts.now) self.new.room) }
        ensures others { (other : _) → IsReserved other self.old.room
            → IsReserved other self.new.room }
        ensures kept { self.new.kept ≡ self.old.kept }
        ensures schema { self.new.schema ≡ self.old.schema }
    {
        let parts = parts.items();
        if self.count() > u64::MAX - parts.len() as u64 {
            return Err(OutOfMemory);
        }
        let needs = needs_of(self.alloc, self.layers.len(), parts)?;
        reserve_all(&mut self.layers, needs.as_slice())
    }

    // Takes the memory for so many stored queries.
    fn reserve_stored(&mut self, queries: &List<StoredQuery>) -> Mem<()>
        ensures reserved { OnOk result (IsReserved (Created queries.now) self.new.room) }
        ensures others { (other : _) → IsReserved other self.old.room
            → IsReserved other self.new.room }
        ensures kept { self.new.kept ≡ self.old.kept }
        ensures schema { self.new.schema ≡ self.old.schema }
    {
        self.stored.reserve(queries.items().len() as u64)
    }

    /// Takes the memory that a change will need, so that it is reserved until the next change is played. `OutOfMemory`: memory ran out, or
    /// there would be more features than 64 bits count.
    pub fn reserve(&mut self, change: &Change) -> Mem<()>
        ensures reserved { OnOk result (IsReserved change.now self.new.room) }
        ensures others { (other : _) → IsReserved other self.old.room
            → IsReserved other self.new.room }
        ensures kept { self.new.kept ≡ self.old.kept }
        ensures schema { self.new.schema ≡ self.old.schema }
    {
        match change {
            Change::Rows(parts) => self.reserve_rows(parts),
            Change::Created(queries) => self.reserve_stored(queries),
            Change::Opening(_) | Change::Dropped(_) | Change::Base { .. } => Ok(()),
        }
    }

    fn open(&mut self, opening: u64)
        requires { is_playable self.old.schema self.old.kept (Opening opening) ≡ true }
        ensures kept { self.new.kept ≡ played_one self.old.kept (Opening opening) }
        ensures schema { self.new.schema ≡ self.old.schema }
    {
        self.opening = opening;
    }

    fn play(&mut self, parts: List<Part>)
        requires playable { is_playable self.old.schema self.old.kept (Rows parts) ≡ true }
        requires reserved { IsReserved (Rows parts) self.old.room }
        ensures kept { self.new.kept ≡ played_one self.old.kept (Rows parts) }
        ensures schema { self.new.schema ≡ self.old.schema }
    {
        play_rows(self.alloc, &mut self.layers, &mut self.counters, parts);
    }

    fn create(&mut self, queries: List<StoredQuery>)
        requires playable { is_playable self.old.schema self.old.kept (Created queries) ≡ true }
        requires queries { AreQueriesOf self.old.schema (Created queries) }
        requires reserved { IsReserved (Created queries) self.old.room }
        ensures kept { self.new.kept ≡ played_one self.old.kept (Created queries) }
        ensures schema { self.new.schema ≡ self.old.schema }
    {
        match self.stored.create(queries) {
            Ok(()) => (),
            Err(_) => unreachable!(),
        }
    }

    fn drop_stored(&mut self, id: Text)
        requires { is_playable self.old.schema self.old.kept (Dropped id) ≡ true }
        ensures kept { self.new.kept ≡ played_one self.old.kept (Dropped id) }
        ensures schema { self.new.schema ≡ self.old.schema }
    {
        let _was_there = self.stored.drop_query(id).is_ok();
    }

    fn begin(&mut self, opening: u64, counters: List<u64>)
        requires { is_playable self.old.schema self.old.kept (Base opening counters) ≡ true }
        ensures kept { self.new.kept ≡ played_one self.old.kept (Base opening counters) }
        ensures schema { self.new.schema ≡ self.old.schema }
    {
        self.opening = opening;
        self.counters = counters;
    }

    /// Plays a change that may be played and is reserved. It takes no memory.
    pub fn apply(&mut self, change: Change)
        requires playable { is_playable self.old.schema self.old.kept change ≡ true }
        requires queries { AreQueriesOf self.old.schema change }
        requires reserved { IsReserved change self.old.room }
        ensures kept { self.new.kept ≡ played_one self.old.kept change }
        ensures schema { self.new.schema ≡ self.old.schema }
    {
        match change {
            Change::Opening(opening) => self.open(opening),
            Change::Rows(parts) => self.play(parts),
            Change::Created(queries) => self.create(queries),
            Change::Dropped(id) => self.drop_stored(id),
            Change::Base { opening, counters } => self.begin(opening, counters),
        }
    }

    /// The same schema, and the same of all that is kept.
    pub fn copy(&self, alloc: Global) -> Mem<Features>
        ensures schema { IfOk result (λ features. features.schema ≡ self.now.schema) }
        ensures kept { IfOk result (λ features. features.kept ≡ self.now.kept) }
    {
        let schema = self.schema.copy(alloc)?;
        let layers = layers::copy(self.layers.as_slice(), alloc)?;
        let counters = List::of(Vec::from_slice(alloc, self.counters.items())?);
        let stored = storing::copy(alloc, &self.stored)?;
        Ok(Features {
            alloc,
            schema,
            layers,
            counters,
            stored,
            opening: self.opening,
        })
    }

    /// The schema that allows each feature and stored query.
    pub fn schema(&self) -> &Schema
        ensures value { result.now ≡ self.now.schema }
        ensures kept { IsKept self.now.schema self.now.kept }
    {
        &self.schema
    }

    /// How many features there are.
    pub fn count(&self) -> u64
        ensures { result ≡ length self.now.kept.features }
    {
        layers::count(self.layers.as_slice())
    }

    /// How many numbers were given of a type; none of a type that is not there.
    pub fn counter(&self, kind: u32) -> u64
        ensures { result ≡ get_or self.now.kept.counters kind 0 }
    {
        match self.counters.items().get(kind as usize) {
            Some(counter) => *counter,
            None => 0,
        }
    }

    /// How many numbers were given, by type.
    pub fn counters(&self) -> &List<u64>
        ensures value { result.now ≡ self.now.kept.counters }
        ensures length { length result.now ≡ length self.now.schema.types }
    {
        &self.counters
    }

    /// The number of the last opening; 0 before the first.
    pub fn openings(&self) -> u64
        ensures { result ≡ self.now.kept.opening }
    {
        self.opening
    }

    /// The stored queries but the built-in one, in the order in which they were made.
    pub fn stored(&self) -> &Stored
        ensures { result.now.list ≡ self.now.kept.stored }
    {
        &self.stored
    }
}
