//! What reads are answered.

ghost use Rattle.std.specs.Prelude.{◌≡◌, ◌≢◌, IfOk, OnOk};
ghost use Rattle.std.specs.Option.{option_map};
ghost use Rattle.fes_filter.specs.Check.{type_in, property_in};
ghost use Rattle.wfs_model.specs.declared.fault.StoredFault.TheVariants.{OutOfMemory as NoMemory};
ghost use Rattle.wfs_model.specs.declared.request.Request.TheVariants.{GetFeatures, GetValues};
ghost use Rattle.wfs_model.specs.declared.reply.Reply.TheVariants.{Refused};
ghost use Rattle.wfs_model.specs.Changing.{IsChange};
ghost use Rattle.wfs_model.specs.Refusals.{refusal_of};
ghost use Rattle.wfs_model.specs.Read.{read, numbers_below, types_asked, is_by_id, is_for_one, bare, first_kind, property_name, property_or, property_asked};
ghost use Rattle.stored_queries.specs.Answered.{IsAnswer, kept_with, shown, valued};
ghost use Rattle.stored_queries.specs.Meant.{all_meant};

use crate::collecting::{held, presented};
use crate::describing::{all_stored, described};
use crate::expanding::{Meant, expand_one};
use crate::refusing::{no_such_feature, no_such_property, refusal_of};
use crate::selecting::{select_asked, selected_of};
use crate::stored::Stored;
use crate::valuing::values;
use feature_values::{Feature, Rid, Schema};
use fes_filter::{FeatureView, property_in, type_in};
use std::alloc::Global;
use wfs_ends::{List, Mem, OutOfMemory, Text};
use wfs_model::{Asked, Present, Refusal, Reply, Request, StoredFault, StoredQuery, is_id_query};

/// The numbers of all types.
fn numbers_below(alloc: Global, types: usize) -> Mem<List<u32>>
    ensures { IfOk result (λ all. all ≡ numbers_below types) }
{
    let mut all = Vec::new(alloc);
    for n in 0..types {
        let Ok(kind) = u32::try_from(n) else {
            return Err(OutOfMemory);
        };
        all.push(kind)?;
    }
    Ok(List::of(all))
}

/// The types that are asked for by number, or all where none is.
fn types_asked(alloc: Global, schema: &Schema, kinds: &[u32]) -> Mem<List<u32>>
    ensures { IfOk result (λ all. all ≡ types_asked schema.now kinds.now) }
{
    if kinds.is_empty() {
        numbers_below(alloc, schema.types.items().len())
    } else {
        Ok(List::of(Vec::from_slice(alloc, kinds)?))
    }
}

fn refused(alloc: Global, fault: StoredFault) -> Mem<Reply>
    ensures value { IfOk result (λ reply. reply ≡ Refused (refusal_of fault)) }
    ensures memory { OnOk result (fault ≢ NoMemory) }
{
    Ok(Reply::Refused(refusal_of(alloc, fault)?))
}

fn is_by_id(asked: &Asked) -> bool
    ensures { result ≡ is_by_id asked.now }
{
    match asked {
        Asked::Plain(_) => false,
        Asked::Stored { id, .. } => is_id_query(id.as_str()),
    }
}

/// Features themselves, not their number, are asked for by the built-in query alone.
fn is_for_one(present: &Present, asked: &[Asked]) -> bool
    ensures { result ≡ is_for_one present.now asked.now }
{
    match asked {
        [one] => !present.hits && is_by_id(one),
        _ => false,
    }
}

/// The feature that was found by its identifier, by itself (OGC 09-025r2, section 7.9.3.6).
fn bare(alloc: Global, found: &[Feature]) -> Mem<Reply>
    ensures { IfOk result (λ reply. reply ≡ bare found.now) }
{
    match found {
        [] => Ok(Reply::Refused(no_such_feature(alloc)?)),
        [feature, ..] => Ok(Reply::Bare(feature.copy(alloc)?)),
    }
}

/// What was selected, by itself or as it is presented.
fn shown<V: FeatureView>(
    alloc: Global,
    view: &V,
    moment: u64,
    present: &Present,
    asked: &[Asked],
    ids: &[Rid],
) -> Mem<Reply>
    ensures { IfOk result (λ reply. reply ≡ shown (V.features view.now) moment present.now asked.now
        ids.now) }
{
    if is_for_one(present, asked) {
        let found = held(alloc, view, ids)?;
        bare(alloc, found.items())
    } else {
        presented(alloc, view, moment, present, ids)
    }
}

/// The features that are asked for (OGC 09-025r2, section 11).
fn features_answered<V: FeatureView>(
    alloc: Global,
    view: &V,
    stored: &[StoredQuery],
    schema: &Schema,
    moment: u64,
    present: &Present,
    asked: &[Asked],
) -> Mem<Reply>
    ensures { IfOk result (λ reply. reply ≡ read schema.now
        (kept_with (V.features view.now) stored.now) moment (GetFeatures present.now asked.now)) }
{
    match select_asked(alloc, view, stored, schema, asked) {
        Ok(ids) => shown(alloc, view, moment, present, asked, ids.items()),
        Err(fault) => refused(alloc, fault),
    }
}

/// The type of the first query, where it names one.
fn first_kind(queries: &[Meant]) -> Option<u32>
    ensures { result ≡ first_kind (all_meant queries.now) }
{
    match queries {
        [] => None,
        [meant, ..] => meant.query().kind,
    }
}

/// The property's name that stands under the empty name among what is given.
#[tactic(auto, unfolding(wfs_model::specs::Read::property_name))]
fn property_name(given: &[(Text, Text)]) -> &str
    ensures { result.now ≡ property_name given.now }
{
    match given.iter().find(|pair| pair.0.as_str().is_empty()) {
        None => "",
        Some(pair) => pair.1.as_str(),
    }
}

/// The property of a name in a type.
fn property_or(
    alloc: Global,
    schema: &Schema,
    kind: Option<u32>,
    name: &str,
) -> Mem<Result<u32, Refusal>>
    ensures { IfOk result (λ found. found ≡ property_or name.now
        (option_map (λ p. p.0) (property_in (type_in schema.now kind) name.now))) }
{
    match property_in(type_in(schema, kind), name) {
        None => Ok(Err(no_such_property(alloc, name)?)),
        Some((property, _)) => Ok(Ok(property)),
    }
}

/// The property whose values are asked for: beside a stored query that of its first query's type with the name that is kept.
#[tactic(auto, unfolding(wfs_model::specs::Read::property_asked))]
fn property_asked(
    alloc: Global,
    schema: &Schema,
    asked: &Asked,
    property: u32,
    kind: Option<u32>,
) -> Mem<Result<u32, Refusal>>
    ensures { IfOk result (λ found. found ≡ property_asked schema.now asked.now property kind) }
{
    match asked {
        Asked::Plain(_) => Ok(Ok(property)),
        Asked::Stored { given, .. } => {
            property_or(alloc, schema, kind, property_name(given.items()))
        }
    }
}

/// The values of a property in what queries select.
fn valued<V: FeatureView>(
    alloc: Global,
    view: &V,
    schema: &Schema,
    moment: u64,
    present: &Present,
    asked: &Asked,
    property: u32,
    queries: &[Meant],
) -> Mem<Reply>
    ensures { IfOk result (λ reply. reply ≡ valued schema.now (V.features view.now) moment
        present.now asked.now property (all_meant queries.now)) }
{
    let kind = first_kind(queries);
    match property_asked(alloc, schema, asked, property, kind)? {
        Err(refusal) => Ok(Reply::Refused(refusal)),
        Ok(property) => {
            let ids = selected_of(alloc, view, queries)?;
            values(alloc, view, moment, present, kind, property, ids.items())
        }
    }
}

/// The values of a property that are asked for (OGC 09-025r2, section 10).
#[tactic(auto, unfolding(wfs_model::specs::Read::read, wfs_model::specs::Read::values_asked))]
fn values_answered<V: FeatureView>(
    alloc: Global,
    view: &V,
    stored: &[StoredQuery],
    schema: &Schema,
    moment: u64,
    present: &Present,
    asked: &Asked,
    property: u32,
) -> Mem<Reply>
    ensures { IfOk result (λ reply. reply ≡ read schema.now
        (kept_with (V.features view.now) stored.now) moment
        (GetValues present.now asked.now property)) }
{
    match expand_one(alloc, stored, asked, schema) {
        Ok(queries) => valued(
            alloc, view, schema, moment, present, asked, property, &queries,
        ),
        Err(fault) => refused(alloc, fault),
    }
}

#[tactic(auto, unfolding(wfs_model::specs::Read::read))]
fn answered<V: FeatureView>(
    alloc: Global,
    view: &V,
    stored: &[StoredQuery],
    schema: &Schema,
    moment: u64,
    request: &Request,
) -> Mem<Reply>
    ensures { IfOk result (λ reply. reply ≡ read schema.now
        (kept_with (V.features view.now) stored.now) moment request.now) }
{
    match request {
        Request::DescribeTypes(kinds) => {
            Ok(Reply::Types(types_asked(alloc, schema, kinds.items())?))
        }
        Request::GetFeatures(present, asked) => features_answered(
            alloc,
            view,
            stored,
            schema,
            moment,
            present,
            asked.items(),
        ),
        Request::GetValues(present, asked, property) => values_answered(
            alloc, view, stored, schema, moment, present, asked, *property,
        ),
        Request::ListStored => Ok(Reply::StoredList(all_stored(alloc, stored)?)),
        Request::DescribeStored(ids) => described(alloc, stored, ids.items()),
        Request::Capabilities
        | Request::GetLocked { .. }
        | Request::Lock { .. }
        | Request::Renew { .. }
        | Request::Transact { .. }
        | Request::CreateStored(_)
        | Request::DropStored(_) => Ok(Reply::Capabilities),
    }
}

/// What a read is answered over a view and stored queries, with this moment printed (OGC 09-025r2, sections 8 to 11 and 14): the
/// one body behind every read. It copies the features that it answers and no others. The schema is the view's.
#[tactic(auto, using(crate::proofs::Answers::answers))]
pub fn answer<V: FeatureView>(
    alloc: Global,
    view: &V,
    stored: &Stored,
    schema: &Schema,
    moment: u64,
    request: &Request,
) -> Mem<Reply>
    requires read { IsChange request.now → ⊥ }
    requires schema { V.schema view.now ≡ schema.now }
    ensures { IfOk result (IsAnswer schema.now (V.features view.now) stored.now.list moment
        request.now) }
{
    answered(alloc, view, stored.list(), schema, moment, request)
}
