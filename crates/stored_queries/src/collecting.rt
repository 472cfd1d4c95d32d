//! Features that were selected, as they are presented.

ghost use Rattle.std.specs.Prelude.{◌≡◌, ◌++◌, [], None, IfOk, OnOk};
ghost use Rattle.std.specs.Option.{option_copied};
ghost use Rattle.query_core.specs.Selecting.{held, to_list};
ghost use Rattle.wfs_model.specs.declared.reply.Reply.TheVariants.{Collection};
ghost use Rattle.wfs_model.specs.Read.{presented};

use crate::paging::{link_to, next_page, page, previous_page};
use feature_values::{Feature, Rid};
use fes_filter::FeatureView;
use std::alloc::Global;
use wfs_ends::{List, Mem};
use wfs_model::{Present, Reply};

/// Adds a copy of a feature, where there is one.
fn add_copy(alloc: Global, found: &mut Vec<Feature>, feature: Option<&Feature>) -> Mem<()>
    ensures { OnOk result (found.new.items ≡ found.old.items
        ++ to_list (option_copied feature.entry)) }
{
    if let Some(feature) = feature {
        found.push(feature.copy(alloc)?)?;
    }
    Ok(())
}

/// Copies of the features that a view has of these identifiers, in their order. A copy shares the values.
pub fn held<V: FeatureView>(alloc: Global, view: &V, ids: &[Rid]) -> Mem<List<Feature>>
    ensures { IfOk result (λ features. features ≡ held (V.features view.now) ids.now) }
{
    let mut found = Vec::with_capacity(alloc, ids.len())?;
    for id in ids {
        add_copy(alloc, &mut found, view.get(*id))?;
    }
    Ok(List::of(found))
}

/// How many features were selected.
fn counted(alloc: Global, moment: u64, matched: u64) -> Reply
    ensures { result ≡ Collection moment matched [] None None None }
{
    Reply::Collection {
        moment,
        matched,
        features: List::of(Vec::new(alloc)),
        lock: None,
        next: None,
        previous: None,
    }
}

/// Features that were selected, as they are presented (OGC 09-025r2, section 7.6.3): counted alone, or a page of them with its
/// links. Only the features of the page are copied.
#[tactic(auto, unfolding(wfs_model::specs::Read::presented))]
pub fn presented<V: FeatureView>(
    alloc: Global,
    view: &V,
    moment: u64,
    present: &Present,
    ids: &[Rid],
) -> Mem<Reply>
    ensures { IfOk result (λ reply. reply ≡ presented (V.features view.now) moment present.now
        ids.now) }
{
    let matched = ids.len() as u64;
    if present.hits {
        return Ok(counted(alloc, moment, matched));
    }
    let features = held(alloc, view, page(ids, present.start, present.count))?;
    let next = next_page(present.start, present.count, matched);
    let previous = previous_page(present.start, present.count);
    Ok(Reply::Collection {
        moment,
        matched,
        features,
        lock: None,
        next: link_to(alloc, &present.link, next)?,
        previous: link_to(alloc, &present.link, previous)?,
    })
}
