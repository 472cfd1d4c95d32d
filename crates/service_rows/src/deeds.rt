//! Transactions on marks.

ghost use Rattle.std.specs.Prelude.{◌≡◌, IfOk, All};
ghost use Rattle.wfs_model.specs.Changing.{IsChange};
ghost use Rattle.wfs_model.specs.OfSchema.{IsActionOf, IsNewOf, IsOfSchema};
ghost use Rattle.transaction_core.specs.Marks.{AreMarks};
ghost use Rattle.transaction_core.specs.Plan.{IsTransaction};

use crate::marks::{allowed, filter};
use crate::samples::HANDLE;
use feature_values::{Feature, Schema, Value};
use lock_table::{LockId, Release};
use std::alloc::Global;
use wfs_ends::{List, Mem, Text};
use wfs_model::{Action, Request};

/// What is done.
#[derive(Clone, Copy)]
pub enum Deed {
    /// A mark of this size comes in.
    Insert(i64),
    /// One mark or all get this size.
    Update(Option<u64>, i64),
    /// One mark or all are replaced by one of this size.
    Replace(Option<u64>, i64),
    /// One mark goes, or all go.
    Delete(Option<u64>),
}

// A mark that comes in.
fn new_mark(alloc: Global, schema: &Schema, size: i64) -> Mem<Feature>
    ensures { IfOk result (λ f. IsNewOf schema.now f × (f.id.kind ≡ 0)) }
{
    allowed(alloc, schema, 0, size)
}

/// An Insert of a mark of this size.
#[tactic(auto, using(transaction_core::proofs::Marks::alone))]
pub fn insert(alloc: Global, schema: &Schema, size: i64) -> Mem<Action>
    requires { AreMarks schema.now }
    ensures { IfOk result (IsActionOf schema.now) }
{
    let mut features = Vec::new(alloc);
    features.push(new_mark(alloc, schema, size)?)?;
    Ok(Action::Insert {
        handle: Some(Text::of(alloc, HANDLE)?),
        features: List::of(features),
    })
}

#[tactic(auto, using(transaction_core::proofs::Marks::alone, transaction_core::proofs::Marks::size_is_of, transaction_core::proofs::Marks::kind_is_of))]
fn update(alloc: Global, schema: &Schema, number: Option<u64>, size: i64) -> Mem<Action>
    requires { AreMarks schema.now }
    ensures { IfOk result (IsActionOf schema.now) }
{
    let mut sets = Vec::new(alloc);
    sets.push((0, Value::Whole(size)))?;
    Ok(Action::Update {
        handle: Some(Text::of(alloc, HANDLE)?),
        kind: 0,
        sets: List::of(sets),
        filter: Some(filter(alloc, schema, number)?),
    })
}

fn replace(alloc: Global, schema: &Schema, number: Option<u64>, size: i64) -> Mem<Action>
    requires { AreMarks schema.now }
    ensures { IfOk result (IsActionOf schema.now) }
{
    let feature = new_mark(alloc, schema, size)?;
    let filter = filter(alloc, schema, number)?;
    Ok(Action::Replace {
        handle: Some(Text::of(alloc, HANDLE)?),
        feature,
        filter,
    })
}

/// A Delete of one mark, or of all.
#[tactic(auto, using(transaction_core::proofs::Marks::kind_is_of))]
pub fn delete(alloc: Global, schema: &Schema, number: Option<u64>) -> Mem<Action>
    requires { AreMarks schema.now }
    ensures { IfOk result (IsActionOf schema.now) }
{
    Ok(Action::Delete {
        kind: 0,
        filter: filter(alloc, schema, number)?,
    })
}

fn action(alloc: Global, schema: &Schema, deed: Deed) -> Mem<Action>
    requires { AreMarks schema.now }
    ensures { IfOk result (IsActionOf schema.now) }
{
    match deed {
        Deed::Insert(size) => insert(alloc, schema, size),
        Deed::Update(number, size) => update(alloc, schema, number, size),
        Deed::Replace(number, size) => replace(alloc, schema, number, size),
        Deed::Delete(number) => delete(alloc, schema, number),
    }
}

#[tactic(auto, using(transaction_core::proofs::Marks::all_more, transaction_core::proofs::Marks::all_none))]
fn actions(alloc: Global, schema: &Schema, deeds: &[Deed]) -> Mem<List<Action>>
    requires { AreMarks schema.now }
    ensures { IfOk result (All (IsActionOf schema.now)) }
{
    let mut actions = Vec::new(alloc);
    for deed in deeds {
        actions.push(action(alloc, schema, *deed)?)?;
    }
    Ok(List::of(actions))
}

/// A transaction of these deeds under a lock, or without one.
#[tactic(auto, using(transaction_core::proofs::Marks::transaction_is_of))]
pub fn transaction(
    alloc: Global,
    schema: &Schema,
    lock: Option<LockId>,
    release: Release,
    deeds: &[Deed],
) -> Mem<Request>
    requires { AreMarks schema.now }
    ensures change { IfOk result IsChange }
    ensures transaction { IfOk result IsTransaction }
    ensures fitting { IfOk result (IsOfSchema schema.now) }
{
    let actions = actions(alloc, schema, deeds)?;
    Ok(Request::Transact {
        lock,
        release,
        actions,
    })
}
