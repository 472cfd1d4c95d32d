//! Requests of a schema whose one type is Mark, with a size.

ghost use Rattle.std.specs.Prelude.{◌≡◌, ◌≤◌, ◌∷◌, [], codes, IfOk, All, Some};
ghost use Rattle.wfs_model.specs.Changing.{IsChange};
ghost use Rattle.wfs_model.specs.OfSchema.{IsActionOf, IsFilterOf, IsNewOf, IsOfSchema, IsQueryOf, IsStoredOf, ids_in, places_in};
ghost use Rattle.transaction_core.specs.Marks.{AreMarks, IsOne, mark_properties, mark_types};

use feature_values::{Feature, FeatureType, Property, Rid, Schema, Value, ValueKind, fits};
use fes_filter::{By, Expr, Filter, IdRef, Query, check};
use lock_table::{LockId, Release};
use std::alloc::Global;
use wfs_ends::{Boxed, List, Mem, OutOfMemory, Text};
use wfs_model::{Action, Asked, Present, Request, StoredQuery, Take};

fn size(alloc: Global) -> Mem<List<Property>>
    ensures { IfOk result (λ properties. properties ≡ mark_properties) }
{
    let mut properties = Vec::new(alloc);
    properties.push(Property {
        name: Text::of(alloc, "size")?,
        kind: ValueKind::Whole,
        required: false,
        max: 1,
    })?;
    Ok(List::of(properties))
}

fn mark_type(alloc: Global) -> Mem<List<FeatureType>>
    ensures { IfOk result (λ types. types ≡ mark_types) }
{
    let mut types = Vec::new(alloc);
    types.push(FeatureType {
        name: Text::of(alloc, "Mark")?,
        properties: size(alloc)?,
    })?;
    Ok(List::of(types))
}

/// The schema of the marks.
pub fn schema(alloc: Global) -> Mem<Schema>
    ensures { IfOk result AreMarks }
{
    let types = mark_type(alloc)?;
    Ok(Schema {
        title: Text::of(alloc, "Marks")?,
        address: Text::of(alloc, "http://localhost/wfs")?,
        space: Text::of(alloc, "urn:marks")?,
        prefix: Text::of(alloc, "m")?,
        srs: List::of(Vec::new(alloc)),
        types,
    })
}

// ---- filters

fn of_one(alloc: Global, number: u64) -> Mem<Filter>
    ensures { IfOk result IsOne }
{
    let mut ids = Vec::new(alloc);
    ids.push(IdRef::Known(Rid { kind: 0, number }))?;
    Ok(Filter::Ids(List::of(ids)))
}

fn of_all(alloc: Global) -> Mem<Filter>
    ensures { IfOk result IsOne }
{
    Ok(Filter::Not(Boxed::new(alloc, Filter::IsNull(0))?))
}

fn chosen(alloc: Global, number: Option<u64>) -> Mem<Filter>
    ensures { IfOk result IsOne }
{
    match number {
        Some(number) => of_one(alloc, number),
        None => of_all(alloc),
    }
}

#[tactic(auto, using(transaction_core::proofs::Marks::one_is_of))]
fn filter(alloc: Global, schema: &Schema, number: Option<u64>) -> Mem<Filter>
    requires { AreMarks schema.now }
    ensures { IfOk result (λ f. IsFilterOf schema.now (Some 0) 0 f) }
{
    let filter = chosen(alloc, number)?;
    match check(&filter, Some(0), schema) {
        Ok(()) => Ok(filter),
        Err(_) => Err(OutOfMemory),
    }
}

// ---- actions

/// What is done.
#[derive(Clone, Copy, Debug, PartialEq, Eq)]
pub enum Deed {
    /// A mark of this size comes in.
    Insert(i64),
    /// One mark or all get this size.
    Update(Option<u64>, i64),
    /// One mark or all are replaced by one of this size.
    Replace(Option<u64>, i64),
    /// One mark goes, or all go.
    Delete(Option<u64>),
}

fn sized(alloc: Global, size: i64) -> Mem<Feature>
    ensures { IfOk result (λ f. f.id ≡ record { kind = 0; number = 0 }) }
{
    let mut values = Vec::new(alloc);
    values.push(Value::Whole(size))?;
    Feature::of(alloc, Rid { kind: 0, number: 0 }, values)
}

// A mark that comes in.
fn new_mark(alloc: Global, schema: &Schema, size: i64) -> Mem<Feature>
    ensures { IfOk result (λ f. IsNewOf schema.now f × (f.id.kind ≡ 0)) }
{
    let feature = sized(alloc, size)?;
    match fits(schema, &feature) {
        Ok(()) => Ok(feature),
        Err(_) => Err(OutOfMemory),
    }
}

#[tactic(auto, using(transaction_core::proofs::Marks::alone))]
fn insert(alloc: Global, schema: &Schema, size: i64) -> Mem<Action>
    requires { AreMarks schema.now }
    ensures { IfOk result (IsActionOf schema.now) }
{
    let mut features = Vec::new(alloc);
    features.push(new_mark(alloc, schema, size)?)?;
    Ok(Action::Insert {
        handle: None,
        features: List::of(features),
    })
}

#[tactic(auto, using(transaction_core::proofs::Marks::alone, transaction_core::proofs::Marks::size_is_of, transaction_core::proofs::Marks::kind_is_of))]
fn update(alloc: Global, schema: &Schema, number: Option<u64>, size: i64) -> Mem<Action>
    requires { AreMarks schema.now }
    ensures { IfOk result (IsActionOf schema.now) }
{
    let mut sets = Vec::new(alloc);
    sets.push((0, Value::Whole(size)))?;
    Ok(Action::Update {
        handle: None,
        kind: 0,
        sets: List::of(sets),
        filter: Some(filter(alloc, schema, number)?),
    })
}

fn replace(alloc: Global, schema: &Schema, number: Option<u64>, size: i64) -> Mem<Action>
    requires { AreMarks schema.now }
    ensures { IfOk result (IsActionOf schema.now) }
{
    let feature = new_mark(alloc, schema, size)?;
    let filter = filter(alloc, schema, number)?;
    Ok(Action::Replace {
        handle: None,
        feature,
        filter,
    })
}

#[tactic(auto, using(transaction_core::proofs::Marks::kind_is_of))]
fn delete(alloc: Global, schema: &Schema, number: Option<u64>) -> Mem<Action>
    requires { AreMarks schema.now }
    ensures { IfOk result (IsActionOf schema.now) }
{
    Ok(Action::Delete {
        kind: 0,
        filter: filter(alloc, schema, number)?,
    })
}

fn action(alloc: Global, schema: &Schema, deed: Deed) -> Mem<Action>
    requires { AreMarks schema.now }
    ensures { IfOk result (IsActionOf schema.now) }
{
    match deed {
        Deed::Insert(size) => insert(alloc, schema, size),
        Deed::Update(number, size) => update(alloc, schema, number, size),
        Deed::Replace(number, size) => replace(alloc, schema, number, size),
        Deed::Delete(number) => delete(alloc, schema, number),
    }
}

#[tactic(auto, using(transaction_core::proofs::Marks::all_more, transaction_core::proofs::Marks::all_none))]
fn actions(alloc: Global, schema: &Schema, deeds: &[Deed]) -> Mem<List<Action>>
    requires { AreMarks schema.now }
    ensures { IfOk result (All (IsActionOf schema.now)) }
{
    let mut actions = Vec::new(alloc);
    for deed in deeds {
        actions.push(action(alloc, schema, *deed)?)?;
    }
    Ok(List::of(actions))
}

// ---- requests that change something

/// What is asked.
#[derive(Clone, Copy, Debug, PartialEq, Eq)]
pub enum Ask {
    /// A transaction with the lock of this opening and number, or without one.
    Transact(Option<(u64, u64)>, Release, &'static [Deed]),
    /// A lock on one mark or on all for so many seconds.
    Lock(Option<u64>, Take, u32),
    /// A new deadline for a lock.
    Renew(u64, u64),
    /// The stored query `urn:x:by`, of the marks whose size is its parameter `l`.
    Create,
    /// The same under the identifiers `urn:x:by` and `urn:x:too`, in one request.
    CreateTwo,
    /// How many marks there are.
    Count,
    /// The marks that the stored query of an identifier selects for these parameters.
    Use(&'static str, &'static [(&'static str, &'static str)]),
    /// No request: an opening of this number begins.
    Reopen(u64),
    /// No request: the change that a transaction would make is played.
    Play(&'static [Deed]),
    /// No request: the change that `Create` would make is played.
    PlayCreate,
    /// No request: the change that an opening of this number makes is played.
    PlayOpening(u64),
}

fn lock_id(id: Option<(u64, u64)>) -> Option<LockId> {
    match id {
        Some((opening, number)) => Some(LockId { opening, number }),
        None => None,
    }
}

#[tactic(auto, using(transaction_core::proofs::Marks::transaction_is_of))]
fn transaction(
    alloc: Global,
    schema: &Schema,
    id: Option<(u64, u64)>,
    release: Release,
    deeds: &[Deed],
) -> Mem<Request>
    requires { AreMarks schema.now }
    ensures change { IfOk result IsChange }
    ensures fitting { IfOk result (IsOfSchema schema.now) }
{
    let actions = actions(alloc, schema, deeds)?;
    Ok(Request::Transact {
        lock: lock_id(id),
        release,
        actions,
    })
}

#[tactic(auto, using(crate::proofs::Marks::query_is_of))]
fn query(alloc: Global, schema: &Schema, number: Option<u64>) -> Mem<Query>
    requires { AreMarks schema.now }
    ensures { IfOk result (IsQueryOf schema.now 0) }
{
    Ok(Query {
        kind: Some(0),
        filter: Some(filter(alloc, schema, number)?),
        sort: List::of(Vec::new(alloc)),
    })
}

#[tactic(auto, using(crate::proofs::Marks::lock_is_of))]
fn lock(
    alloc: Global,
    schema: &Schema,
    number: Option<u64>,
    take: Take,
    period: u32,
) -> Mem<Request>
    requires marks { AreMarks schema.now }
    requires period { 1 ≤ period }
    ensures change { IfOk result IsChange }
    ensures fitting { IfOk result (IsOfSchema schema.now) }
{
    let mut asked = Vec::new(alloc);
    asked.push(Asked::Plain(query(alloc, schema, number)?))?;
    Ok(Request::Lock {
        asked: List::of(asked),
        take,
        period,
    })
}

#[tactic(auto, using(crate::proofs::Marks::renewal_is_of))]
fn renew(schema: &Schema, opening: u64, number: u64) -> Request
    ensures change { IsChange result }
    ensures fitting { IsOfSchema schema.now result }
{
    let _ = schema;
    Request::Renew {
        lock: LockId { opening, number },
        period: None,
    }
}

fn by_size() -> Filter
    ensures ids { ids_in result ≡ [] }
    ensures places { places_in result ≡ 0 ∷ [] }
{
    Filter::Compare {
        by: By::Equal,
        left: Expr::Property(0),
        right: Expr::Parameter(0),
        fold: false,
    }
}

// The query of the marks of a size that is the first parameter.
#[tactic(auto, using(crate::proofs::Marks::sized_is_of))]
fn sized_query(alloc: Global, schema: &Schema) -> Mem<Query>
    requires { AreMarks schema.now }
    ensures { IfOk result (λ query. IsQueryOf schema.now 1 query) }
{
    let filter = by_size();
    match check(&filter, Some(0), schema) {
        Ok(()) => Ok(Query {
            kind: Some(0),
            filter: Some(filter),
            sort: List::of(Vec::new(alloc)),
        }),
        Err(_) => Err(OutOfMemory),
    }
}

fn one_name(alloc: Global) -> Mem<List<Text>>
    ensures { IfOk result (λ names. names ≡ codes "l" ∷ []) }
{
    let mut names = Vec::new(alloc);
    names.push(Text::of(alloc, "l")?)?;
    Ok(List::of(names))
}

#[tactic(auto, using(transaction_core::proofs::Marks::alone, crate::proofs::Marks::stored_is_of))]
fn stored(alloc: Global, schema: &Schema, id: &'static str) -> Mem<StoredQuery>
    requires { AreMarks schema.now }
    ensures { IfOk result (IsStoredOf schema.now) }
{
    let mut queries = Vec::new(alloc);
    queries.push(sized_query(alloc, schema)?)?;
    Ok(StoredQuery {
        id: Text::of(alloc, id)?,
        title: Text::of(alloc, "")?,
        parameters: one_name(alloc)?,
        queries: List::of(queries),
        text: Text::of(alloc, "")?,
    })
}

#[tactic(auto, using(transaction_core::proofs::Marks::alone, crate::proofs::Marks::creation_is_of))]
fn create(alloc: Global, schema: &Schema) -> Mem<Request>
    requires { AreMarks schema.now }
    ensures change { IfOk result IsChange }
    ensures fitting { IfOk result (IsOfSchema schema.now) }
{
    let mut all = Vec::new(alloc);
    all.push(stored(alloc, schema, "urn:x:by")?)?;
    Ok(Request::CreateStored(List::of(all)))
}

#[tactic(auto, using(transaction_core::proofs::Marks::alone, transaction_core::proofs::Marks::all_more))]
fn two_stored(alloc: Global, schema: &Schema) -> Mem<List<StoredQuery>>
    requires { AreMarks schema.now }
    ensures { IfOk result (All (IsStoredOf schema.now)) }
{
    let mut all = Vec::new(alloc);
    all.push(stored(alloc, schema, "urn:x:by")?)?;
    all.push(stored(alloc, schema, "urn:x:too")?)?;
    Ok(List::of(all))
}

#[tactic(auto, using(crate::proofs::Marks::creation_is_of))]
fn create_two(alloc: Global, schema: &Schema) -> Mem<Request>
    requires { AreMarks schema.now }
    ensures change { IfOk result IsChange }
    ensures fitting { IfOk result (IsOfSchema schema.now) }
{
    let definitions = two_stored(alloc, schema)?;
    Ok(Request::CreateStored(definitions))
}

/// A changing request; or want of memory, where something else is asked.
pub fn request(alloc: Global, schema: &Schema, ask: Ask) -> Mem<Request>
    requires { AreMarks schema.now }
    ensures change { IfOk result IsChange }
    ensures fitting { IfOk result (IsOfSchema schema.now) }
{
    match ask {
        Ask::Transact(id, release, deeds) => transaction(alloc, schema, id, release, deeds),
        Ask::Lock(number, take, period) if period > 0 => lock(alloc, schema, number, take, period),
        Ask::Renew(opening, number) => Ok(renew(schema, opening, number)),
        Ask::Create => create(alloc, schema),
        Ask::CreateTwo => create_two(alloc, schema),
        _ => Err(OutOfMemory),
    }
}

// ---- reads

fn present(hits: bool) -> Present {
    Present {
        start: 0,
        count: None,
        hits,
        link: None,
    }
}

fn given(alloc: Global, names: &[(&'static str, &'static str)]) -> Mem<List<(Text, Text)>> {
    let mut all = Vec::new(alloc);
    for (name, value) in names {
        all.push((Text::of(alloc, name)?, Text::of(alloc, value)?))?;
    }
    Ok(List::of(all))
}

fn features(hits: bool, alloc: Global, asked: Asked) -> Mem<Request>
    ensures { IfOk result (λ request. IsChange request → ⊥) }
{
    let mut all = Vec::new(alloc);
    all.push(asked)?;
    Ok(Request::GetFeatures(present(hits), List::of(all)))
}

/// A read: of a use of a stored query, or else how many marks there are.
pub fn reading(alloc: Global, ask: Ask) -> Mem<Request>
    ensures { IfOk result (λ request. IsChange request → ⊥) }
{
    if let Ask::Use(id, names) = ask {
        let id = Text::of(alloc, id)?;
        let given = given(alloc, names)?;
        return features(false, alloc, Asked::Stored { id, given });
    }
    let query = Query {
        kind: Some(0),
        filter: None,
        sort: List::of(Vec::new(alloc)),
    };
    features(true, alloc, Asked::Plain(query))
}
