//! Steps of a store: what is asked of it, what it answers, and what it tells of itself then.

ghost use Rattle.std.specs.Prelude.{◌≡◌, [], IfOk};
ghost use Rattle.feature_schema.specs.Rules.{KeepsRules};
ghost use Rattle.wfs_model.specs.Changing.{IsChange};
ghost use Rattle.wfs_model.specs.OfSchema.{IsOfSchema, stored_in};

use crate::requests::{count, insertion, insertion_of_two, lock};
use disk_core::Disk;
use feature_values::Schema;
use lock_table::LockId;
use std::alloc::Global;
use wfs_ends::Mem;
use wfs_model::{Entry, FullAt, Reply, Request};
use wfs_store::{StepFault, Store};

/// What is asked.
#[derive(Clone, Copy)]
pub enum Ask {
    /// A mark with this label is inserted.
    Insert(&'static str),
    /// Two marks are inserted at once.
    InsertTwo(&'static str, &'static str),
    /// All marks are locked for 60 seconds.
    Lock,
}

/// What is answered.
#[derive(Clone, Copy, PartialEq, Eq)]
pub enum Told {
    /// So many marks were inserted, of which the first has this number.
    Inserted(u64, u64),
    Locked(Option<LockId>),
    Full(FullAt),
    Fault,
    /// An answer that no row names.
    Other,
}

/// What a store tells of itself.
#[derive(Clone, Copy)]
pub struct Stand {
    /// How many marks a read counts.
    pub marks: u64,
    /// How many entries the history has.
    pub entries: u64,
    /// Whether the last of them made a change.
    pub changed: bool,
}

/// What is asked, what is answered, and what the store tells then.
pub type Step = (Ask, Told, Stand);

// ---- answers

fn told_by(reply: &Reply) -> Told {
    match reply {
        Reply::Transacted { inserted, .. } => match inserted.items() {
            [first, ..] => Told::Inserted(first.id.number, inserted.items().len() as u64),
            [] => Told::Other,
        },
        Reply::Locked { lock, .. } => Told::Locked(*lock),
        _ => Told::Other,
    }
}

fn matched_in(reply: &Reply) -> Option<u64> {
    match reply {
        Reply::Collection { matched, .. } => Some(*matched),
        _ => None,
    }
}

/// How many marks a read at the moment 1000 counts.
pub fn hits<D: Disk>(alloc: Global, store: &Store<D>, schema: &Schema) -> Mem<Option<u64>>
    requires rules { KeepsRules schema.now }
    requires schema { store.now.schema ≡ schema.now }
{
    let request = count(alloc, schema)?;
    Ok(matched_in(&store.read(1000, &request)?))
}

// ---- steps

// A request of seat 1 at the moment 1000, of 60 bytes.
fn entry_of(request: Request) -> Entry
    ensures seat { result.seat ≡ 1 }
    ensures request { result.request ≡ request }
{
    Entry {
        seat: 1,
        moment: 1000,
        size: 60,
        request,
    }
}

/// What a step answers.
pub fn take<D: Disk>(store: &mut Store<D>, schema: &Schema, request: Request) -> Told
    requires schema { store.old.schema ≡ schema.now }
    requires change { IsChange request }
    requires fitting { IsOfSchema schema.now request }
    requires none { stored_in request ≡ [] }
    ensures { store.new.schema ≡ store.old.schema }
{
    match store.step(entry_of(request)) {
        Ok(reply) => told_by(&reply),
        Err(StepFault::StoreFault) => Told::Fault,
        Err(StepFault::Full(at)) => Told::Full(at),
        Err(StepFault::OutOfMemory) => Told::Other,
    }
}

fn request(alloc: Global, schema: &Schema, ask: Ask) -> Mem<Request>
    requires { KeepsRules schema.now }
    ensures change { IfOk result IsChange }
    ensures fitting { IfOk result (IsOfSchema schema.now) }
    ensures none { IfOk result (λ request. stored_in request ≡ []) }
{
    match ask {
        Ask::Insert(label) => insertion(alloc, schema, label),
        Ask::InsertTwo(first, second) => insertion_of_two(alloc, schema, first, second),
        Ask::Lock => lock(alloc, schema),
    }
}

/// What a store answers.
pub fn does<D: Disk>(alloc: Global, store: &mut Store<D>, schema: &Schema, ask: Ask) -> Mem<Told>
    requires rules { KeepsRules schema.now }
    requires schema { store.old.schema ≡ schema.now }
    ensures { store.new.schema ≡ store.old.schema }
{
    let request = request(alloc, schema, ask)?;
    Ok(take(store, schema, request))
}

fn stands_so<D: Disk>(alloc: Global, store: &Store<D>, schema: &Schema, stand: Stand) -> Mem<bool>
    requires rules { KeepsRules schema.now }
    requires schema { store.now.schema ≡ schema.now }
{
    let is_counted = hits(alloc, store, schema)? == Some(stand.marks);
    let has_changed = store.last_change().is_some();
    Ok(is_counted && store.entries() == stand.entries && has_changed == stand.changed)
}

fn is_told<D: Disk>(alloc: Global, store: &mut Store<D>, schema: &Schema, step: &Step) -> Mem<bool>
    requires rules { KeepsRules schema.now }
    requires schema { store.old.schema ≡ schema.now }
    ensures { store.new.schema ≡ store.old.schema }
{
    let (ask, told, stand) = *step;
    if does(alloc, store, schema, ask)? != told {
        return Ok(false);
    }
    stands_so(alloc, store, schema, stand)
}

/// Whether each step is answered so.
pub fn are_told<D: Disk>(
    alloc: Global,
    store: &mut Store<D>,
    schema: &Schema,
    steps: &[Step],
) -> Mem<bool>
    requires rules { KeepsRules schema.now }
    requires schema { store.old.schema ≡ schema.now }
{
    for step in steps {
        if !is_told(alloc, store, schema, step)? {
            return Ok(false);
        }
    }
    Ok(true)
}
