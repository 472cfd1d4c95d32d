//! Requests for marks.

ghost use Rattle.std.specs.Prelude.{◌≡◌, [], IfOk};
ghost use Rattle.feature_schema.specs.Rules.{KeepsRules};
ghost use Rattle.request_plans.specs.Marks.{AreAsked};
ghost use Rattle.wfs_model.specs.Changing.{IsChange};
ghost use Rattle.wfs_model.specs.OfSchema.{IsActionOf, IsNewOf, IsOfSchema, IsQueryOf, stored_in};

use crate::sides::SCHEMA;
use feature_schema::read_schema;
use feature_values::{Feature, Rid, Schema, Value, fits};
use fes_filter::Query;
use lock_table::Release;
use std::alloc::Global;
use wfs_ends::{List, Mem, OutOfMemory, Text};
use wfs_model::{Action, Asked, Present, Request, Take};

pub fn schema(alloc: Global) -> Mem<Schema>
    ensures { IfOk result KeepsRules }
{
    match read_schema(alloc, SCHEMA.as_bytes()) {
        Ok(schema) => Ok(schema),
        Err(_) => Err(OutOfMemory),
    }
}

// ---- transactions

// A mark with this label that comes.
fn new_mark(alloc: Global, schema: &Schema, label: &str) -> Mem<Feature>
    ensures { IfOk result (IsNewOf schema.now) }
{
    let mut values = Vec::new(alloc);
    values.push(Value::Words(Text::of(alloc, label)?))?;
    values.push(Value::Null)?;
    values.push(Value::Null)?;
    let id = Rid { kind: 0, number: 0 };
    let feature = Feature::of(alloc, id, values)?;
    match fits(schema, &feature) {
        Ok(()) => Ok(feature),
        Err(_) => Err(OutOfMemory),
    }
}

#[tactic(auto, using(request_plans::proofs::Marks::alone))]
fn one(alloc: Global, schema: &Schema, label: &str) -> Mem<Action>
    ensures { IfOk result (IsActionOf schema.now) }
{
    let mut features = Vec::new(alloc);
    features.push(new_mark(alloc, schema, label)?)?;
    Ok(Action::Insert {
        handle: None,
        features: List::of(features),
    })
}

#[tactic(auto, using(request_plans::proofs::Marks::alone, request_plans::proofs::Marks::all_more))]
fn two(alloc: Global, schema: &Schema, first: &str, second: &str) -> Mem<Action>
    ensures { IfOk result (IsActionOf schema.now) }
{
    let mut features = Vec::new(alloc);
    features.push(new_mark(alloc, schema, first)?)?;
    features.push(new_mark(alloc, schema, second)?)?;
    Ok(Action::Insert {
        handle: None,
        features: List::of(features),
    })
}

#[tactic(auto, using(request_plans::proofs::Marks::alone, request_plans::proofs::Marks::transaction_is_of))]
fn transaction(alloc: Global, schema: &Schema, action: Action) -> Mem<Request>
    requires { IsActionOf schema.now action }
    ensures change { IfOk result IsChange }
    ensures fitting { IfOk result (IsOfSchema schema.now) }
    ensures none { IfOk result (λ request. stored_in request ≡ []) }
{
    let mut actions = Vec::new(alloc);
    actions.push(action)?;
    Ok(Request::Transact {
        lock: None,
        release: Release::Whole,
        actions: List::of(actions),
    })
}

/// Inserts a mark with this label.
pub fn insertion(alloc: Global, schema: &Schema, label: &str) -> Mem<Request>
    ensures change { IfOk result IsChange }
    ensures fitting { IfOk result (IsOfSchema schema.now) }
    ensures none { IfOk result (λ request. stored_in request ≡ []) }
{
    transaction(alloc, schema, one(alloc, schema, label)?)
}

/// Inserts two marks with these labels.
pub fn insertion_of_two(alloc: Global, schema: &Schema, first: &str, second: &str) -> Mem<Request>
    ensures change { IfOk result IsChange }
    ensures fitting { IfOk result (IsOfSchema schema.now) }
    ensures none { IfOk result (λ request. stored_in request ≡ []) }
{
    transaction(alloc, schema, two(alloc, schema, first, second)?)
}

// ---- queries

// A query for all marks.
#[tactic(auto, using(crate::proofs::Asking::all_of_first))]
fn query(alloc: Global, schema: &Schema) -> Mem<Query>
    requires { KeepsRules schema.now }
    ensures { IfOk result (IsQueryOf schema.now 0) }
{
    Ok(Query {
        kind: Some(0),
        filter: None,
        sort: List::of(Vec::new(alloc)),
    })
}

#[tactic(auto, using(request_plans::proofs::Marks::are_asked))]
fn asked(alloc: Global, schema: &Schema) -> Mem<List<Asked>>
    requires { KeepsRules schema.now }
    ensures { IfOk result (AreAsked schema.now) }
{
    let mut asked = Vec::new(alloc);
    asked.push(Asked::Plain(query(alloc, schema)?))?;
    Ok(List::of(asked))
}

/// Locks all marks for 60 seconds.
#[tactic(auto, using(request_plans::proofs::Marks::lock_is_of))]
pub fn lock(alloc: Global, schema: &Schema) -> Mem<Request>
    requires { KeepsRules schema.now }
    ensures change { IfOk result IsChange }
    ensures fitting { IfOk result (IsOfSchema schema.now) }
    ensures none { IfOk result (λ request. stored_in request ≡ []) }
{
    Ok(Request::Lock {
        asked: asked(alloc, schema)?,
        take: Take::AllOrNone,
        period: 60,
    })
}

/// Counts all marks.
#[tactic(auto, using(crate::proofs::Asking::counting_is_of))]
pub fn count(alloc: Global, schema: &Schema) -> Mem<Request>
    requires { KeepsRules schema.now }
    ensures read { IfOk result (λ request. IsChange request → ⊥) }
    ensures fitting { IfOk result (IsOfSchema schema.now) }
{
    let present = Present {
        start: 0,
        count: None,
        hits: true,
        link: None,
    };
    Ok(Request::GetFeatures(present, asked(alloc, schema)?))
}
