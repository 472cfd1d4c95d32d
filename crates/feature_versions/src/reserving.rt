//! Room for changes of single features: what each type needs is summed up first.

ghost use Rattle.std.specs.Prelude.{◌≡◌, ◌+◌, List, ◌∷◌, ◌++◌, [], IfOk, OnOk, length};
ghost use Rattle.feature_values.specs.declared.feature.Feature.{Feature as TheFeature};
ghost use Rattle.feature_versions.specs.Near.{boxes_of};
ghost use Rattle.feature_versions.specs.Needs.{AreNeeds, AreMet};
ghost use Rattle.feature_versions.specs.Reserved.{put_in, all_put};
ghost use Rattle.feature_versions.specs.Types.{AreAlike, AreRoomier};

use crate::boxes::push_boxes;
use crate::layer::Layer;
use feature_values::Feature;
use geom_core::Box2;
use std::alloc::Global;
use std::mem::replace;
use wfs_ends::{List, Mem, OutOfMemory};
use wfs_model::Part;

/// What the features that come need of a type: so many rows, and room for these boxes.
#[derive(Drop)]
pub(crate) struct Need {
    pub(crate) rows: usize,
    pub(crate) boxes: List<Box2>,
}

// So many types of which nothing is needed.
fn no_needs(alloc: Global, types: usize) -> Mem<Vec<Need>>
    ensures needs { IfOk result (λ needs. AreNeeds [] needs.items) }
    ensures length { IfOk result (λ needs. length needs.items ≡ types) }
{
    let mut needs = Vec::with_capacity(alloc, types)?;
    for _ in 0..types {
        needs.push(Need {
            rows: 0,
            boxes: List::of(Vec::new(alloc)),
        })?;
    }
    Ok(needs)
}

// A feature more is to come.
fn add_one(alloc: Global, need: &mut Need, feature: &Feature) -> Mem<()>
    ensures rows { OnOk result (need.new.rows ≡ need.old.rows + 1) }
    ensures boxes { OnOk result (need.new.boxes ≡ need.old.boxes ++ boxes_of feature.now) }
{
    let Some(rows) = need.rows.checked_add(1) else {
        return Err(OutOfMemory);
    };
    let mut boxes = replace(&mut need.boxes, List::of(Vec::new(alloc))).into_items();
    push_boxes(&mut boxes, feature)?;
    need.rows = rows;
    need.boxes = List::of(boxes);
    Ok(())
}

// A feature more is to come to its type.
fn add(alloc: Global, needs: &mut Vec<Need>, feature: &Feature) -> Mem<()>
    ensures needs { OnOk result ((features : List TheFeature) → AreNeeds features needs.old.items
        → AreNeeds (features ++ feature.now ∷ []) needs.new.items) }
    ensures length { OnOk result (length needs.new.items ≡ length needs.old.items) }
{
    let kind = feature.id.kind as usize;
    if kind < needs.len() {
        add_one(alloc, &mut needs[kind], feature)?;
    }
    Ok(())
}

// What a part needs is added.
fn add_part(alloc: Global, needs: &mut Vec<Need>, part: &Part) -> Mem<()>
    ensures needs { OnOk result ((features : List TheFeature) → AreNeeds features needs.old.items
        → AreNeeds (features ++ put_in part.now) needs.new.items) }
    ensures length { OnOk result (length needs.new.items ≡ length needs.old.items) }
{
    match part {
        Part::Put(feature) => add(alloc, needs, feature),
        Part::Remove(_) => Ok(()),
    }
}

/// What parts need of each of so many types.
pub(crate) fn needs_of(alloc: Global, types: usize, parts: &[Part]) -> Mem<Vec<Need>>
    ensures needs { IfOk result (λ needs. AreNeeds (all_put parts.now) needs.items) }
    ensures length { IfOk result (λ needs. length needs.items ≡ types) }
{
    let mut needs = no_needs(alloc, types)?;
    for part in parts {
        add_part(alloc, &mut needs, part)?;
    }
    Ok(needs)
}

/// Makes room for what is needed of each type.
pub(crate) fn reserve_all(layers: &mut Vec<Layer>, needs: &[Need]) -> Mem<()>
    requires { length needs.now ≡ length layers.old.items }
    ensures same { AreAlike layers.old.items layers.new.items }
    ensures roomier { AreRoomier layers.old.items layers.new.items }
    ensures met { OnOk result (AreMet (length needs.now) needs.now layers.new.items) }
{
    for kind in 0..needs.len() {
        let need = &needs[kind];
        layers[kind].reserve(need.rows, &need.boxes)?;
    }
    Ok(())
}
