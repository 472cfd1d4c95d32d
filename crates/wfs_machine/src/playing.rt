//! Changes of single features: each is played in place, and cannot fail where there is room.

ghost use Rattle.std.specs.Prelude.{◌≡◌, ◌+◌, ◌<◌, ◌≤◌, length};
ghost use Rattle.std.specs.List.{fold};
ghost use Rattle.std.specs.Vec.{vec_len, vec_capacity};
ghost use Rattle.fes_filter.specs.View.{IsInOrder};
ghost use Rattle.wfs_model.specs.State.{Durable};
ghost use Rattle.wfs_model.specs.Played.{part_played};
ghost use Rattle.wfs_machine.specs.Ordered.{counted, with_rows};

use crate::ordered::lay;
use feature_values::Feature;
use std::alloc::Global;
use std::mem::replace;
use wfs_ends::List;
use wfs_model::Part;

// A feature under a number raises its type's counter to it, where it is greater.
fn raise(counters: &mut [u64], part: &Part)
    ensures { counters.new ≡ counted counters.old part.now }
{
    if let Part::Put(feature) = part {
        let kind = feature.id.kind as usize;
        if kind < counters.len() && counters[kind] < feature.id.number {
            counters[kind] = feature.id.number;
        }
    }
}

// Plays a change of one feature, where there is room for one more.
#[tactic(auto, unfolding(wfs_model::specs::Played::part_played))]
fn play(features: &mut Vec<Feature>, counters: &mut [u64], part: Part)
    requires order { IsInOrder features.old.items }
    requires room { vec_len features.old < vec_capacity features.old }
    ensures played { (kept : Durable) → with_rows kept features.new.items counters.new
        ≡ part_played (with_rows kept features.old.items counters.old) part }
    ensures order { IsInOrder features.new.items }
    ensures len { vec_len features.new ≤ vec_len features.old + 1 }
    ensures capacity { vec_capacity features.old ≤ vec_capacity features.new }
{
    raise(counters, &part);
    lay(features, part);
}

// Plays changes of single features, in order. There is room for as many more as there are.
fn play_all(features: &mut Vec<Feature>, counters: &mut [u64], parts: Vec<Part>)
    requires order { IsInOrder features.old.items }
    requires room { vec_len features.old + length parts.items ≤ vec_capacity features.old }
    ensures { (kept : Durable) → with_rows kept features.new.items counters.new
        ≡ fold part_played (with_rows kept features.old.items counters.old) parts.items }
{
    for part in parts {
        play(features, counters, part);
    }
}

/// Plays changes of single features, in order, for which there is room, where the counters stand in a list.
pub(crate) fn play_rows(
    alloc: Global,
    features: &mut Vec<Feature>,
    counters: &mut List<u64>,
    parts: List<Part>,
)
    requires order { IsInOrder features.old.items }
    requires room { vec_len features.old + length parts ≤ vec_capacity features.old }
    ensures { (kept : Durable) → with_rows kept features.new.items counters.new
        ≡ fold part_played (with_rows kept features.old.items counters.old) parts }
{
    let mut all = replace(counters, List::of(Vec::new(alloc))).into_items();
    play_all(features, all.as_mut_slice(), parts.into_items());
    *counters = List::of(all);
}
