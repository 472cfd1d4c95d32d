//! Requests of the marks' schema.

ghost use Rattle.std.specs.Prelude.{◌≡◌, ◌≤◌, [], IfOk, IfSome, All, Some};
ghost use Rattle.wfs_model.specs.Changing.{IsChange};
ghost use Rattle.wfs_model.specs.OfSchema.{IsFilterOf, IsQueryOf, IsActionOf, IsOfSchema, IsStoredOf};
ghost use Rattle.transaction_core.specs.Marks.{AreMarks};
ghost use Rattle.request_plans.specs.Marks.{AreAsked};

use crate::deeds::{delete, insert};
use crate::marks::filter;
use feature_values::Schema;
use fes_filter::{Filter, Query};
use lock_table::{LockId, Release};
use std::alloc::Global;
use wfs_ends::{List, Mem, Text};
use wfs_model::{Action, Asked, Present, Request, StoredQuery, Take};

/// What is asked, by the number of a mark, or of all of them.
#[derive(Clone, Copy)]
pub enum Ask {
    Lock(Take, Option<u64>),
    /// Where the page begins, and how many members it has.
    Page(Take, u32, u32),
    Renew(LockId),
    /// A mark is deleted, where one is named, and one is inserted, where that is wanted; under a lock, or without one.
    Transact(Option<LockId>, Release, Option<u64>, bool),
    Create,
    Drop,
}

fn filter_if(alloc: Global, schema: &Schema, number: Option<u64>) -> Mem<Option<Filter>>
    requires { AreMarks schema.now }
    ensures { IfOk result (λ f. IfSome f (IsFilterOf schema.now (Some 0) 0)) }
{
    match number {
        None => Ok(None),
        Some(_) => Ok(Some(filter(alloc, schema, number)?)),
    }
}

#[tactic(auto, using(request_plans::proofs::Marks::query_is_of))]
fn query(alloc: Global, schema: &Schema, number: Option<u64>) -> Mem<Query>
    requires { AreMarks schema.now }
    ensures { IfOk result (IsQueryOf schema.now 0) }
{
    Ok(Query {
        kind: Some(0),
        filter: filter_if(alloc, schema, number)?,
        sort: List::of(Vec::new(alloc)),
    })
}

#[tactic(auto, using(request_plans::proofs::Marks::are_asked))]
fn asked(alloc: Global, schema: &Schema, number: Option<u64>) -> Mem<List<Asked>>
    requires { AreMarks schema.now }
    ensures { IfOk result (AreAsked schema.now) }
{
    let mut asked = Vec::new(alloc);
    asked.push(Asked::Plain(query(alloc, schema, number)?))?;
    Ok(List::of(asked))
}

#[tactic(auto, using(request_plans::proofs::Marks::all_more))]
fn add_delete(
    alloc: Global,
    schema: &Schema,
    number: Option<u64>,
    actions: &mut Vec<Action>,
) -> Mem<()>
    requires marks { AreMarks schema.now }
    requires before { All (IsActionOf schema.now) actions.old.items }
    ensures { All (IsActionOf schema.now) actions.new.items }
{
    if number.is_some() {
        actions.push(delete(alloc, schema, number)?)?;
    }
    Ok(())
}

#[tactic(auto, using(request_plans::proofs::Marks::all_more))]
fn add_insert(alloc: Global, schema: &Schema, wanted: bool, actions: &mut Vec<Action>) -> Mem<()>
    requires marks { AreMarks schema.now }
    requires before { All (IsActionOf schema.now) actions.old.items }
    ensures { All (IsActionOf schema.now) actions.new.items }
{
    if wanted {
        actions.push(insert(alloc, schema, 10)?)?;
    }
    Ok(())
}

#[tactic(auto, using(request_plans::proofs::Marks::all_none))]
fn actions(alloc: Global, schema: &Schema, gone: Option<u64>, comes: bool) -> Mem<List<Action>>
    requires { AreMarks schema.now }
    ensures { IfOk result (All (IsActionOf schema.now)) }
{
    let mut actions = Vec::new(alloc);
    add_delete(alloc, schema, gone, &mut actions)?;
    add_insert(alloc, schema, comes, &mut actions)?;
    Ok(List::of(actions))
}

#[tactic(auto, using(request_plans::proofs::Marks::stored_is_of))]
fn definition(alloc: Global, schema: &Schema) -> Mem<StoredQuery>
    ensures { IfOk result (IsStoredOf schema.now) }
{
    let id = Text::of(alloc, "urn:x:by")?;
    let title = Text::of(alloc, "")?;
    let text = Text::of(alloc, "")?;
    Ok(StoredQuery {
        id,
        title,
        parameters: List::of(Vec::new(alloc)),
        queries: List::of(Vec::new(alloc)),
        text,
    })
}

#[tactic(auto, using(request_plans::proofs::Marks::alone))]
fn definitions(alloc: Global, schema: &Schema) -> Mem<List<StoredQuery>>
    ensures { IfOk result (All (IsStoredOf schema.now)) }
{
    let mut definitions = Vec::new(alloc);
    definitions.push(definition(alloc, schema)?)?;
    Ok(List::of(definitions))
}

fn present(start: u32, count: u32) -> Present {
    Present {
        start,
        count: Some(count),
        hits: false,
        link: None,
    }
}

/// The request that asks this. A period is 100 seconds, and a stored query is `urn:x:by`.
#[tactic(auto, using(request_plans::proofs::Marks::lock_is_of, request_plans::proofs::Marks::page_is_of, request_plans::proofs::Marks::renewal_is_of, request_plans::proofs::Marks::transaction_is_of, request_plans::proofs::Marks::creation_is_of))]
pub fn request(alloc: Global, schema: &Schema, ask: Ask) -> Mem<Request>
    requires { AreMarks schema.now }
    ensures change { IfOk result IsChange }
    ensures fitting { IfOk result (IsOfSchema schema.now) }
{
    match ask {
        Ask::Lock(take, number) => Ok(Request::Lock {
            asked: asked(alloc, schema, number)?,
            take,
            period: 100,
        }),
        Ask::Page(take, start, count) => Ok(Request::GetLocked {
            present: present(start, count),
            asked: asked(alloc, schema, None)?,
            take,
            period: 100,
        }),
        Ask::Renew(lock) => Ok(Request::Renew {
            lock,
            period: Some(100),
        }),
        Ask::Transact(lock, release, gone, comes) => Ok(Request::Transact {
            lock,
            release,
            actions: actions(alloc, schema, gone, comes)?,
        }),
        Ask::Create => Ok(Request::CreateStored(definitions(alloc, schema)?)),
        Ask::Drop => Ok(Request::DropStored(Text::of(alloc, "urn:x:by")?)),
    }
}
