//! Stored queries as replies list them.

ghost use Rattle.std.specs.Prelude.{◌≡◌, [], ◌∷◌, IfOk, IsPermutation, filter, map};
ghost use Rattle.std.specs.List.{list_all, list_any};
ghost use Rattle.std.specs.List.Sorted.{IsSorted};
ghost use Rattle.std.specs.Ordering.{nat_cmp};
ghost use Rattle.std.specs.Cmp.Lexicographic.{slice_cmp};
ghost use Rattle.wfs_model.specs.Stored.{is_id_query, is_known, built_in, all_stored};
ghost use Rattle.wfs_model.specs.Read.{is_listed, described, reply_of};

use crate::finding::{has, in_order, ordered};
use crate::refusing::no_such_query;
use crate::stored::built_in;
use std::alloc::Global;
use wfs_ends::{List, Mem, Text};
use wfs_model::{ID_QUERY_URN, Reply, StoredQuery, is_id_query};

/// Copies of all stored queries, the built-in one first.
pub(crate) fn all_stored(alloc: Global, stored: &[StoredQuery]) -> Mem<List<StoredQuery>>
    ensures { IfOk result (λ all. all ≡ all_stored stored.now) }
{
    let mut all = Vec::new(alloc);
    all.push(built_in(alloc)?)?;
    for query in stored {
        all.push(query.copy(alloc)?)?;
    }
    Ok(List::of(all))
}

/// The identifiers of stored queries. A copy shares the text.
fn ids_of(alloc: Global, stored: &[StoredQuery]) -> Mem<Vec<Text>>
    ensures { IfOk result (λ ids. ids.items ≡ map (λ query. query.id) stored.now) }
{
    let mut ids = Vec::with_capacity(alloc, stored.len())?;
    for query in stored {
        ids.push(query.id.copy(alloc)?)?;
    }
    Ok(ids)
}

/// Whether an identifier is that of the built-in query or of one that is there, of which these are the identifiers in order.

fn is_known(stored: &[StoredQuery], sorted: &[Text], id: &str) -> bool
    requires same { IsPermutation (map (λ query. query.id) stored.now) sorted.now }
    requires order { IsSorted (slice_cmp nat_cmp) sorted.now }
    ensures { result ≡ is_known stored.now id.now }
{
    is_id_query(id) || has(sorted, id)
}

/// Whether all of some identifiers are known.
fn are_known(alloc: Global, stored: &[StoredQuery], ids: &[Text]) -> Mem<bool>
    ensures { IfOk result (λ all. all ≡ list_all (is_known stored.now) ids.now) }
{
    let sorted = ordered(ids_of(alloc, stored)?)?;
    for id in ids {
        if !is_known(stored, &sorted, id.as_str()) {
            return Ok(false);
        }
    }
    Ok(true)
}

fn has_id_query(ids: &[Text]) -> bool
    ensures { result ≡ list_any is_id_query ids.now }
{
    ids.iter().any(|id| is_id_query(id.as_str()))
}

/// Whether a stored query is listed among identifiers, which stand in order beside them; the built-in one has two.

fn is_listed(ids: &[Text], sorted: &[Text], query: &StoredQuery) -> bool
    requires same { IsPermutation ids.now sorted.now }
    requires order { IsSorted (slice_cmp nat_cmp) sorted.now }
    ensures { result ≡ is_listed ids.now query.now }
{
    let own = query.id.as_str();
    has(sorted, own) || (own == ID_QUERY_URN && has_id_query(ids))
}

/// The built-in query, where it is listed.
fn built_in_if(alloc: Global, ids: &[Text], sorted: &[Text]) -> Mem<Vec<StoredQuery>>
    requires same { IsPermutation ids.now sorted.now }
    requires order { IsSorted (slice_cmp nat_cmp) sorted.now }
    ensures { IfOk result (λ all. all.items ≡ filter (is_listed ids.now) (built_in ∷ [])) }
{
    let query = built_in(alloc)?;
    let mut all = Vec::new(alloc);
    if is_listed(ids, sorted, &query) {
        all.push(query)?;
    }
    Ok(all)
}

/// Copies of the stored queries that are listed, in the order in which all stand, each once.
fn all_listed(alloc: Global, stored: &[StoredQuery], ids: &[Text]) -> Mem<List<StoredQuery>>
    ensures { IfOk result (λ all. all ≡ filter (is_listed ids.now) (all_stored stored.now)) }
{
    let sorted = in_order(alloc, ids)?;
    let mut all = built_in_if(alloc, ids, &sorted)?;
    for query in stored {
        if !is_listed(ids, &sorted, query) {
            continue;
        }
        all.push(query.copy(alloc)?)?;
    }
    Ok(List::of(all))
}

/// The stored queries with some identifiers, in the order in which all stand, or all where none is named (OGC 09-025r2, section
/// 14.4). One that no query has is refused.
#[tactic(auto, unfolding(wfs_model::specs::Read::described))]
pub(crate) fn described(alloc: Global, stored: &[StoredQuery], ids: &[Text]) -> Mem<Reply>
    ensures { IfOk result (λ reply. reply ≡ reply_of (described stored.now ids.now)) }
{
    if ids.is_empty() {
        return Ok(Reply::StoredTexts(all_stored(alloc, stored)?));
    }
    if are_known(alloc, stored, ids)? {
        Ok(Reply::StoredTexts(all_listed(alloc, stored, ids)?))
    } else {
        Ok(Reply::Refused(no_such_query(alloc)?))
    }
}
