//! The features of all types: each type's at its place.

ghost use Rattle.std.specs.Prelude.{◌≡◌, ◌<◌, ◌≤◌, [], ◌∷◌, Some, IfOk, length, drop, slice_get};
ghost use Rattle.std.specs.Option.{option_copied};
ghost use Rattle.fes_filter.specs.View.{feature_at, next_after, HasAllNear, IsOnce};
ghost use Rattle.wfs_model.specs.declared.change.Part.TheVariants.{Put, Remove};
ghost use Rattle.feature_versions.specs.Near.{most_near};
ghost use Rattle.feature_versions.specs.Types.{features_of, features_at, AreTyped, AreAlike, HasRooms, Plays};

use crate::layer::Layer;
use feature_values::{Feature, Rid};
use geom_core::Box2;
use std::alloc::Global;
use wfs_ends::{List, Mem, OutOfMemory};

// The number of a type, which has to fit its identifiers.
fn kind_of(place: usize) -> Mem<u32>
    ensures { IfOk result (λ kind. kind ≡ place) }
{
    match u32::try_from(place) {
        Ok(kind) => Ok(kind),
        Err(_) => Err(OutOfMemory),
    }
}

/// So many types without features.
pub(crate) fn no_layers(alloc: Global, types: usize) -> Mem<Vec<Layer>>
    ensures typed { IfOk result (λ layers. AreTyped layers.items) }
    ensures length { IfOk result (λ layers. length layers.items ≡ types) }
    ensures features { IfOk result (λ layers. features_of layers.items ≡ []) }
{
    let mut layers = Vec::with_capacity(alloc, types)?;
    for place in 0..types {
        layers.push(Layer::new(alloc, kind_of(place)?))?;
    }
    Ok(layers)
}

/// The same types with the same features.
pub(crate) fn copy(layers: &[Layer], alloc: Global) -> Mem<Vec<Layer>>
    ensures { IfOk result (λ copies. AreAlike layers.now copies.items) }
{
    let mut copies = Vec::with_capacity(alloc, layers.len())?;
    for layer in layers {
        copies.push(layer.copy(alloc)?)?;
    }
    Ok(copies)
}

/// How many features there are.
pub(crate) fn count(layers: &[Layer]) -> u64
    requires { length (features_of layers.now) ≤ 18_446_744_073_709_551_615 }
    ensures { result ≡ length (features_of layers.now) }
{
    let mut all = 0;
    for layer in layers {
        all += layer.count() as u64;
    }
    all
}

/// The feature with this identifier.
pub(crate) fn get(layers: &[Layer], id: Rid) -> Option<&Feature>
    requires { AreTyped layers.now }
    ensures { option_copied result ≡ feature_at id (features_of layers.now) }
{
    match layers.get(id.kind as usize) {
        None => None,
        Some(layer) => layer.get(id),
    }
}

// The first feature of a type or of those behind it, and the place behind it among the rows of its type.
fn first_from(layers: &[Layer], kind: usize) -> (Option<&Feature>, usize)
    ensures { option_copied result.0 ≡ slice_get (features_of (drop kind layers.now)) 0 }
{
    for at in kind..layers.len() {
        let (found, place) = layers[at].first();
        if found.is_some() {
            return (found, place);
        }
    }
    (None, 0)
}

// The first feature of an identifier's type behind it.
fn behind_in(layers: &[Layer], id: Rid, guess: usize) -> (Option<&Feature>, usize)
    requires { AreTyped layers.now }
    ensures { option_copied result.0 ≡ next_after (Some id) (features_at id.kind layers.now) }
{
    match layers.get(id.kind as usize) {
        None => (None, 0),
        Some(layer) => layer.behind(id, guess),
    }
}

// The first feature behind an identifier.
fn behind(layers: &[Layer], id: Rid, guess: usize) -> (Option<&Feature>, usize)
    requires { AreTyped layers.now }
    ensures { option_copied result.0 ≡ next_after (Some id) (features_of layers.now) }
{
    let (found, place) = behind_in(layers, id, guess);
    if found.is_some() {
        return (found, place);
    }
    first_from(layers, id.kind as usize + 1)
}

/// The first feature, or the first behind an identifier, which need not be there, and the place behind it among the rows of its type. A
/// guess of the place is looked at first.
pub(crate) fn next(layers: &[Layer], after: Option<Rid>, guess: usize) -> (Option<&Feature>, usize)
    requires { AreTyped layers.now }
    ensures { option_copied result.0 ≡ next_after after (features_of layers.now) }
{
    match after {
        None => first_from(layers, 0),
        Some(id) => behind(layers, id, guess),
    }
}

/// The features of a type with a box near another by the cells of the grid.
pub(crate) fn near(layers: &[Layer], alloc: Global, kind: u32, area: &Box2) -> Mem<List<Rid>>
    requires { AreTyped layers.now }
    ensures whole { IfOk result (λ ids. HasAllNear kind area.now (features_of layers.now) ids) }
    ensures once { IfOk result (λ ids. IsOnce ids) }
    ensures few { IfOk result (λ ids. length ids ≤ most_near (features_of layers.now) kind
        area.now) }
{
    match layers.get(kind as usize) {
        None => Ok(List::of(Vec::new(alloc))),
        Some(layer) => layer.near(alloc, area),
    }
}

/// Forgets the places of the grids that no box takes any more.
pub(crate) fn sweep(layers: &mut Vec<Layer>)
    ensures { AreAlike layers.old.items layers.new.items }
{
    for kind in 0..layers.len() {
        layers[kind].sweep();
    }
}

/// Puts a feature, for which there is room.
pub(crate) fn put(layers: &mut Vec<Layer>, feature: Feature)
    requires typed { AreTyped layers.old.items }
    requires within { feature.id.kind < length layers.old.items }
    requires room { HasRooms (feature ∷ []) layers.old.items }
    ensures { Plays (Put feature) layers.old.items layers.new.items }
{
    let kind = feature.id.kind as usize;
    layers[kind].put(feature);
}

/// Takes out the feature with an identifier, where there is one.
pub(crate) fn remove(layers: &mut Vec<Layer>, id: Rid)
    requires { AreTyped layers.old.items }
    ensures { Plays (Remove id) layers.old.items layers.new.items }
{
    let kind = id.kind as usize;
    if kind < layers.len() {
        layers[kind].remove(id);
    }
}
