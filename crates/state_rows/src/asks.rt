//! Requests for marks.

ghost use Rattle.std.specs.Prelude.{IfOk, All, Some};
ghost use Rattle.request_plans.specs.Marks.{AreAsked, AreMarks, IsOne};
ghost use Rattle.wfs_model.specs.Changing.{IsChange};
ghost use Rattle.wfs_model.specs.OfSchema.{IsFilterOf, IsQueryOf, IsActionOf, IsOfSchema, IsStoredOf};

use crate::marks::{mark, new_feature};
use feature_values::Schema;
use fes_filter::{Filter, IdRef, Query, check};
use lock_table::{LockId, Release};
use std::alloc::Global;
use wfs_ends::{List, Mem, OutOfMemory, Text};
use wfs_model::{Action, Asked, Request, StoredQuery, Take};

/// What is asked.
#[derive(Clone, Copy)]
pub enum Ask {
    /// A mark is inserted.
    Insert,
    /// A mark is deleted, under a lock or without one.
    Delete(u64, Option<LockId>),
    /// A mark is deleted, and another is inserted.
    Exchange(u64),
    /// Two marks are inserted.
    InsertTwo,
    /// A mark is locked for 60 seconds.
    Lock(u64),
    /// A stored query is made.
    Create(&'static str),
    /// Two stored queries are made.
    CreateTwo(&'static str, &'static str),
}

fn of_one(alloc: Global, number: u64) -> Mem<Filter>
    ensures { IfOk result IsOne }
{
    let mut ids = Vec::new(alloc);
    ids.push(IdRef::Known(mark(number)))?;
    Ok(Filter::Ids(List::of(ids)))
}

#[tactic(auto, using(request_plans::proofs::Marks::one_is_of))]
fn filter(alloc: Global, schema: &Schema, number: u64) -> Mem<Filter>
    requires { AreMarks schema.now }
    ensures { IfOk result (λ f. IsFilterOf schema.now (Some 0) 0 f) }
{
    let filter = of_one(alloc, number)?;
    match check(&filter, Some(0), schema) {
        Ok(()) => Ok(filter),
        Err(_) => Err(OutOfMemory),
    }
}

#[tactic(auto, using(request_plans::proofs::Marks::query_is_of))]
fn query(alloc: Global, schema: &Schema, number: u64) -> Mem<Query>
    requires { AreMarks schema.now }
    ensures { IfOk result (IsQueryOf schema.now 0) }
{
    Ok(Query {
        kind: Some(0),
        filter: Some(filter(alloc, schema, number)?),
        sort: List::of(Vec::new(alloc)),
    })
}

#[tactic(auto, using(request_plans::proofs::Marks::are_asked))]
fn asked(alloc: Global, schema: &Schema, number: u64) -> Mem<List<Asked>>
    requires { AreMarks schema.now }
    ensures { IfOk result (AreAsked schema.now) }
{
    let mut asked = Vec::new(alloc);
    asked.push(Asked::Plain(query(alloc, schema, number)?))?;
    Ok(List::of(asked))
}

#[tactic(auto, using(request_plans::proofs::Marks::alone))]
fn insert(alloc: Global, schema: &Schema, kind: u32) -> Mem<Action>
    ensures { IfOk result (IsActionOf schema.now) }
{
    let mut features = Vec::new(alloc);
    features.push(new_feature(alloc, schema, kind)?)?;
    Ok(Action::Insert {
        handle: None,
        features: List::of(features),
    })
}

#[tactic(auto, using(request_plans::proofs::Marks::kind_is_of))]
fn delete(alloc: Global, schema: &Schema, number: u64) -> Mem<Action>
    requires { AreMarks schema.now }
    ensures { IfOk result (IsActionOf schema.now) }
{
    Ok(Action::Delete {
        kind: 0,
        filter: filter(alloc, schema, number)?,
    })
}

#[tactic(auto, using(request_plans::proofs::Marks::alone, request_plans::proofs::Marks::transaction_is_of))]
fn transaction(alloc: Global, schema: &Schema, lock: Option<LockId>, action: Action) -> Mem<Request>
    requires { IsActionOf schema.now action }
    ensures change { IfOk result IsChange }
    ensures fitting { IfOk result (IsOfSchema schema.now) }
{
    let mut actions = Vec::new(alloc);
    actions.push(action)?;
    Ok(Request::Transact {
        lock,
        release: Release::Whole,
        actions: List::of(actions),
    })
}

#[tactic(auto, using(request_plans::proofs::Marks::all_more))]
fn add_insert(alloc: Global, schema: &Schema, actions: &mut Vec<Action>) -> Mem<()>
    requires { All (IsActionOf schema.now) actions.old.items }
    ensures { All (IsActionOf schema.now) actions.new.items }
{
    actions.push(insert(alloc, schema, 0)?)?;
    Ok(())
}

// An action, and an Insert of a mark behind it.
#[tactic(auto, using(request_plans::proofs::Marks::alone, request_plans::proofs::Marks::transaction_is_of))]
fn with_insert(alloc: Global, schema: &Schema, action: Action) -> Mem<Request>
    requires { IsActionOf schema.now action }
    ensures change { IfOk result IsChange }
    ensures fitting { IfOk result (IsOfSchema schema.now) }
{
    let mut actions = Vec::new(alloc);
    actions.push(action)?;
    add_insert(alloc, schema, &mut actions)?;
    Ok(Request::Transact {
        lock: None,
        release: Release::Whole,
        actions: List::of(actions),
    })
}

/// A feature of this type is inserted.
pub fn insertion(alloc: Global, schema: &Schema, kind: u32) -> Mem<Request>
    ensures change { IfOk result IsChange }
    ensures fitting { IfOk result (IsOfSchema schema.now) }
{
    transaction(alloc, schema, None, insert(alloc, schema, kind)?)
}

#[tactic(auto, using(request_plans::proofs::Marks::stored_is_of))]
fn definition(alloc: Global, schema: &Schema, id: &str) -> Mem<StoredQuery>
    ensures { IfOk result (IsStoredOf schema.now) }
{
    let id = Text::of(alloc, id)?;
    let title = Text::of(alloc, "")?;
    let text = Text::of(alloc, "")?;
    Ok(StoredQuery {
        id,
        title,
        parameters: List::of(Vec::new(alloc)),
        queries: List::of(Vec::new(alloc)),
        text,
    })
}

#[tactic(auto, using(request_plans::proofs::Marks::alone))]
fn definitions(alloc: Global, schema: &Schema, id: &str) -> Mem<List<StoredQuery>>
    ensures { IfOk result (All (IsStoredOf schema.now)) }
{
    let mut definitions = Vec::new(alloc);
    definitions.push(definition(alloc, schema, id)?)?;
    Ok(List::of(definitions))
}

#[tactic(auto, using(request_plans::proofs::Marks::all_more))]
fn add_definition(
    alloc: Global,
    schema: &Schema,
    id: &str,
    definitions: &mut Vec<StoredQuery>,
) -> Mem<()>
    requires { All (IsStoredOf schema.now) definitions.old.items }
    ensures { All (IsStoredOf schema.now) definitions.new.items }
{
    definitions.push(definition(alloc, schema, id)?)?;
    Ok(())
}

#[tactic(auto, using(request_plans::proofs::Marks::all_none))]
fn two_definitions(
    alloc: Global,
    schema: &Schema,
    first: &str,
    second: &str,
) -> Mem<List<StoredQuery>>
    ensures { IfOk result (All (IsStoredOf schema.now)) }
{
    let mut definitions = Vec::new(alloc);
    add_definition(alloc, schema, first, &mut definitions)?;
    add_definition(alloc, schema, second, &mut definitions)?;
    Ok(List::of(definitions))
}

/// The request that asks this.
#[tactic(auto, using(request_plans::proofs::Marks::lock_is_of, request_plans::proofs::Marks::creation_is_of))]
pub fn request(alloc: Global, schema: &Schema, ask: Ask) -> Mem<Request>
    requires { AreMarks schema.now }
    ensures change { IfOk result IsChange }
    ensures fitting { IfOk result (IsOfSchema schema.now) }
{
    match ask {
        Ask::Insert => insertion(alloc, schema, 0),
        Ask::Delete(number, lock) => {
            transaction(alloc, schema, lock, delete(alloc, schema, number)?)
        }
        Ask::Exchange(number) => with_insert(alloc, schema, delete(alloc, schema, number)?),
        Ask::InsertTwo => with_insert(alloc, schema, insert(alloc, schema, 0)?),
        Ask::Lock(number) => Ok(Request::Lock {
            asked: asked(alloc, schema, number)?,
            take: Take::AllOrNone,
            period: 60,
        }),
        Ask::Create(id) => Ok(Request::CreateStored(definitions(alloc, schema, id)?)),
        Ask::CreateTwo(first, second) => {
            Ok(Request::CreateStored(two_definitions(alloc, schema, first, second)?))
        }
    }
}
