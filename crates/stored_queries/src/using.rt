//! Uses of stored queries: the queries that one stands for.

ghost use Rattle.std.specs.Prelude.{◌≡◌, IfOk, map};
ghost use Rattle.std.specs.Option.{option_copied, option_map};
ghost use Rattle.wfs_ends.specs.Read.{GivesBut};
ghost use Rattle.wfs_model.specs.declared.fault.StoredFault.TheVariants.{OutOfMemory};
ghost use Rattle.wfs_model.specs.declared.asked.Asked.TheVariants.{Stored as Used};
ghost use Rattle.wfs_model.specs.Filled.{known_or_nobody, filled};
ghost use Rattle.wfs_model.specs.Expand.{query_by_id, id_query_used, stored_used, expanded};

use crate::filling::filled;
use crate::given::texts_for;
use crate::stored::{built_in, stored_at};
use feature_values::{Rid, Schema, read_rid};
use fes_filter::{Filter, IdRef, Query};
use std::alloc::Global;
use wfs_ends::{List, Mem, Text};
use wfs_model::{StoredFault, StoredQuery, is_id_query};

fn reference_by(id: Option<Rid>) -> IdRef
    ensures { result ≡ known_or_nobody id }
{
    match id {
        None => IdRef::Nobody,
        Some(id) => IdRef::Known(id),
    }
}

fn kind_by(id: Option<Rid>) -> Option<u32>
    ensures { result ≡ option_map (λ i. i.kind) id }
{
    Some(id?.kind)
}

/// The query of a feature by its identifier: it names the identifier's type, and no type where the text is no identifier.
fn query_by_id(alloc: Global, schema: &Schema, text: &Text) -> Mem<Query>
    ensures { IfOk result (λ query. query ≡ query_by_id schema.now text.now) }
{
    let id = read_rid(schema, text.as_str());
    let mut ids = Vec::new(alloc);
    ids.push(reference_by(id))?;
    Ok(Query {
        kind: kind_by(id),
        filter: Some(Filter::Ids(List::of(ids))),
        sort: List::of(Vec::new(alloc)),
    })
}

fn queries_by_ids(alloc: Global, schema: &Schema, texts: &[Text]) -> Mem<Vec<Query>>
    ensures { IfOk result (λ all. all.items ≡ map (query_by_id schema.now) texts.now) }
{
    let mut all = Vec::new(alloc);
    for text in texts {
        all.push(query_by_id(alloc, schema, text)?)?;
    }
    Ok(all)
}

fn all_filled(alloc: Global, schema: &Schema, texts: &[Text], queries: &[Query]) -> Mem<Vec<Query>>
    ensures { IfOk result (λ all. all.items ≡ map (filled schema.now texts.now) queries.now) }
{
    let mut all = Vec::with_capacity(alloc, queries.len())?;
    for query in queries {
        all.push(filled(alloc, schema, texts, query)?)?;
    }
    Ok(all)
}

/// A use of the built-in query (OGC 09-025r2, section 7.9.3.6).
#[tactic(auto, unfolding(wfs_model::specs::Expand::id_query_used))]
fn id_query_used(
    alloc: Global,
    schema: &Schema,
    given: &[(Text, Text)],
) -> Result<Vec<Query>, StoredFault>
    ensures { GivesBut OutOfMemory (λ v. v.items) result (id_query_used schema.now given.now) }
{
    let built_in = built_in(alloc)?;
    let texts = texts_for(alloc, schema, &built_in, given)?;
    Ok(queries_by_ids(alloc, schema, &texts)?)
}

/// A use of the stored query that was found under an identifier.
#[tactic(auto, unfolding(wfs_model::specs::Expand::stored_used))]
fn stored_used(
    alloc: Global,
    schema: &Schema,
    id: &Text,
    given: &[(Text, Text)],
    found: Option<&StoredQuery>,
) -> Result<Vec<Query>, StoredFault>
    ensures { GivesBut OutOfMemory (λ v. v.items) result
        (stored_used schema.now id.now given.now (option_copied found.entry)) }
{
    let Some(query) = found else {
        return Err(StoredFault::Unknown(id.copy(alloc)?));
    };
    let texts = texts_for(alloc, schema, query, given)?;
    Ok(all_filled(alloc, schema, &texts, query.queries.items())?)
}

/// The queries that a use of a stored query stands for.
#[tactic(auto, unfolding(wfs_model::specs::Expand::expanded))]
pub(crate) fn used(
    alloc: Global,
    stored: &[StoredQuery],
    schema: &Schema,
    id: &Text,
    given: &[(Text, Text)],
) -> Result<Vec<Query>, StoredFault>
    ensures { GivesBut OutOfMemory (λ v. v.items) result
        (expanded schema.now stored.now (Used id.now given.now)) }
{
    if is_id_query(id.as_str()) {
        id_query_used(alloc, schema, given)
    } else {
        stored_used(alloc, schema, id, given, stored_at(stored, id.as_str()))
    }
}
