//! Values of a property, as they are presented.

ghost use Rattle.std.specs.Prelude.{◌≡◌, [], None, IfOk, map, filter};
ghost use Rattle.query_core.specs.Selecting.{held};
ghost use Rattle.wfs_model.specs.declared.reply.Reply.TheVariants.{Values};
ghost use Rattle.wfs_model.specs.Read.{has_value, values};

use crate::paging::{link_to, next_page, page, previous_page};
use feature_values::{Feature, Rid, Value};
use fes_filter::FeatureView;
use std::alloc::Global;
use wfs_ends::{List, Mem};
use wfs_model::{Present, Reply};

/// Whether a feature of the type has a value of the property that is not null.
fn has_value(kind: Option<u32>, property: u32, feature: &Feature) -> bool
    ensures { result ≡ has_value kind property feature.now }
{
    let Some(kind) = kind else {
        return false;
    };
    if feature.id.kind != kind {
        return false;
    }
    match feature.items().get(property as usize) {
        None | Some(Value::Null) => false,
        Some(_) => true,
    }
}

/// Those of some features that have a value of the property. None is copied.
fn with_values<'a, V: FeatureView>(
    alloc: Global,
    view: &'a V,
    kind: Option<u32>,
    property: u32,
    ids: &[Rid],
) -> Mem<Vec<&'a Feature>>
    ensures { IfOk result (λ fs. map (λ f. f.now) fs.items
        ≡ filter (has_value kind property) (held (V.features view.now) ids.now)) }
{
    let mut found = Vec::with_capacity(alloc, ids.len())?;
    for id in ids {
        let Some(feature) = view.get(*id) else {
            continue;
        };
        if !has_value(kind, property, feature) {
            continue;
        }
        found.push(feature)?;
    }
    Ok(found)
}

fn copies(alloc: Global, features: &[&Feature]) -> Mem<List<Feature>>
    ensures { IfOk result (λ all. all ≡ map (λ f. f.now) features.now) }
{
    let mut all = Vec::with_capacity(alloc, features.len())?;
    for feature in features {
        all.push(feature.copy(alloc)?)?;
    }
    Ok(List::of(all))
}

/// How many values were found.
fn counted(alloc: Global, moment: u64, property: u32, matched: u64) -> Reply
    ensures { result ≡ Values moment matched property [] None None }
{
    Reply::Values {
        moment,
        matched,
        property,
        features: List::of(Vec::new(alloc)),
        next: None,
        previous: None,
    }
}

/// The values of a property in features that were selected, as they are presented (OGC 09-025r2, section 7.6.3): counted alone, or
/// a page of them with its links. Nulls are left out first. Only the features of the page are copied.
#[tactic(auto, unfolding(wfs_model::specs::Read::values))]
pub(crate) fn values<V: FeatureView>(
    alloc: Global,
    view: &V,
    moment: u64,
    present: &Present,
    kind: Option<u32>,
    property: u32,
    ids: &[Rid],
) -> Mem<Reply>
    ensures { IfOk result (λ reply. reply ≡ values moment present.now kind property
        (held (V.features view.now) ids.now)) }
{
    let some = with_values(alloc, view, kind, property, ids)?;
    let found = some.as_slice();
    let matched = found.len() as u64;
    if present.hits {
        return Ok(counted(alloc, moment, property, matched));
    }
    let features = copies(alloc, page(found, present.start, present.count))?;
    let next = next_page(present.start, present.count, matched);
    let previous = previous_page(present.start, present.count);
    Ok(Reply::Values {
        moment,
        matched,
        property,
        features,
        next: link_to(alloc, &present.link, next)?,
        previous: link_to(alloc, &present.link, previous)?,
    })
}
