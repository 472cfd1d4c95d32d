//! Changes of single features: each is played in place, and cannot fail where there is room.

ghost use Rattle.std.specs.Prelude.{◌≡◌, All, length};
ghost use Rattle.std.specs.List.{fold};
ghost use Rattle.wfs_model.specs.Played.{part_played};
ghost use Rattle.wfs_model.specs.State.{Durable};
ghost use Rattle.feature_versions.specs.Reserved.{all_put, put_in};
ghost use Rattle.feature_versions.specs.Types.{features_of, AreTyped, HasRooms, IsWithin, Plays, counted, with_rows};

use crate::layer::Layer;
use crate::layers::{put, remove, sweep};
use std::alloc::Global;
use std::mem::replace;
use wfs_ends::List;
use wfs_model::Part;

// A feature under a number raises its type's counter to it, where it is greater.
fn raise(counters: &mut [u64], part: &Part)
    ensures { counters.new ≡ counted counters.old part.now }
{
    if let Part::Put(feature) = part {
        let kind = feature.id.kind as usize;
        if kind < counters.len() && counters[kind] < feature.id.number {
            counters[kind] = feature.id.number;
        }
    }
}

// Puts or removes a feature, for which there is room.
fn lay(layers: &mut Vec<Layer>, part: Part)
    requires typed { AreTyped layers.old.items }
    requires within { IsWithin (length layers.old.items) part }
    requires room { HasRooms (put_in part) layers.old.items }
    ensures { Plays part layers.old.items layers.new.items }
{
    match part {
        Part::Put(feature) => put(layers, feature),
        Part::Remove(id) => remove(layers, id),
    }
}

// Plays a change of one feature, where there is room for it.
#[tactic(auto, unfolding(wfs_model::specs::Played::part_played))]
fn play(layers: &mut Vec<Layer>, counters: &mut [u64], part: Part)
    requires typed { AreTyped layers.old.items }
    requires within { IsWithin (length layers.old.items) part }
    requires room { HasRooms (put_in part) layers.old.items }
    ensures played { (kept : Durable) → with_rows kept (features_of layers.new.items) counters.new
        ≡ part_played (with_rows kept (features_of layers.old.items) counters.old) part }
    ensures types { Plays part layers.old.items layers.new.items }
{
    raise(counters, &part);
    lay(layers, part);
}

// Plays changes of single features, in order. There is room for all that they put.
fn play_all(layers: &mut Vec<Layer>, counters: &mut [u64], parts: Vec<Part>)
    requires typed { AreTyped layers.old.items }
    requires within { All (IsWithin (length layers.old.items)) parts.items }
    requires room { HasRooms (all_put parts.items) layers.old.items }
    ensures played { (kept : Durable) → with_rows kept (features_of layers.new.items) counters.new
        ≡ fold part_played (with_rows kept (features_of layers.old.items) counters.old)
        parts.items }
    ensures typed { AreTyped layers.new.items }
    ensures length { length layers.new.items ≡ length layers.old.items }
{
    for part in parts {
        play(layers, counters, part);
    }
}

// Plays changes of single features, in order, where the counters stand in a list. There is room for all that they put.
fn play_listed(alloc: Global, layers: &mut Vec<Layer>, counters: &mut List<u64>, parts: List<Part>)
    requires typed { AreTyped layers.old.items }
    requires within { All (IsWithin (length layers.old.items)) parts }
    requires room { HasRooms (all_put parts) layers.old.items }
    ensures played { (kept : Durable) → with_rows kept (features_of layers.new.items) counters.new
        ≡ fold part_played (with_rows kept (features_of layers.old.items) counters.old) parts }
    ensures typed { AreTyped layers.new.items }
    ensures length { length layers.new.items ≡ length layers.old.items }
{
    let mut all = replace(counters, List::of(Vec::new(alloc))).into_items();
    play_all(layers, all.as_mut_slice(), parts.into_items());
    *counters = List::of(all);
}

/// Plays changes of single features, in order. There is room for all that they put, and for nothing else, so that the grids are swept then.
pub(crate) fn play_rows(
    alloc: Global,
    layers: &mut Vec<Layer>,
    counters: &mut List<u64>,
    parts: List<Part>,
)
    requires typed { AreTyped layers.old.items }
    requires within { All (IsWithin (length layers.old.items)) parts }
    requires room { HasRooms (all_put parts) layers.old.items }
    ensures played { (kept : Durable) → with_rows kept (features_of layers.new.items) counters.new
        ≡ fold part_played (with_rows kept (features_of layers.old.items) counters.old) parts }
    ensures typed { AreTyped layers.new.items }
    ensures length { length layers.new.items ≡ length layers.old.items }
{
    play_listed(alloc, layers, counters, parts);
    sweep(layers);
}
