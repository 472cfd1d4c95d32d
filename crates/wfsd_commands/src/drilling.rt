//! The requests of a drill, carried out one after the other with a store.

ghost use Rattle.std.specs.Prelude.{◌≡◌, ◌+◌, ◌<◌, [], ℕ, All, length};
ghost use Rattle.drill_requests.specs.Carried.{matched_in, taken_in};
ghost use Rattle.drill_requests.specs.Fitting.{IsOneOf};
ghost use Rattle.drill_requests.specs.Requests.{drill_of, requests_of};
ghost use Rattle.feature_schema.specs.Rules.{KeepsRules};
ghost use Rattle.wfs_model.specs.Changing.{IsChange};
ghost use Rattle.wfsd_commands.specs.Drilling.{CarriesAll, CarriesOn, IsSum, RunsThrough};

use disk_core::Disk;
use drill_requests::{Round, moved, requests_of, round_at};
use feature_values::Schema;
use std::alloc::Global;
use wfs_ends::OutOfMemory;
use wfs_model::{Entry, Reply, Request};
use wfs_store::{StepFault, Store};

/// What a drill has come to so far, beside its history: how many requests were carried out, and the sums of what its counts found and of
/// what its locks took, where they have 64 bits.
#[derive(Clone, Copy, Debug, PartialEq, Eq)]
pub struct Sums {
    pub requests: u64,
    pub matched: Option<u64>,
    pub locked: Option<u64>,
}

/// Carries out a drill of so many rounds with a store that has no history yet.
///
/// # Errors
///
/// As a step of the store answers: then the requests before it were carried out.
pub fn run<D: Disk>(
    alloc: Global,
    store: &mut Store<D>,
    schema: &Schema,
    rounds: u32,
) -> Result<Sums, StepFault>
    requires schema { store.old.schema ≡ schema.now }
    requires rules { KeepsRules schema.now }
    requires fresh { store.old.entries ≡ [] }
    ensures { RunsThrough D.faults (drill_of schema.now rounds) store.old result store.new }
{
    let types = schema.types.items().len() as u32;
    let mut sums = Sums {
        requests: 0,
        matched: Some(0),
        locked: Some(0),
    };
    let mut seed = rounds;
    for number in 0..rounds {
        let round = round_at(number, seed, types);
        seed = moved(moved(seed));
        run_round(alloc, store, &mut sums, schema, round)?;
    }
    Ok(sums)
}

// Carries out the requests of a round.
fn run_round<D: Disk>(
    alloc: Global,
    store: &mut Store<D>,
    sums: &mut Sums,
    schema: &Schema,
    round: Round,
) -> Result<(), StepFault>
    requires same { store.old.schema ≡ schema.now }
    requires rules { KeepsRules schema.now }
    requires kind { round.kind < length schema.now.types }
    ensures all { CarriesAll D.faults (requests_of schema.now round) store.old sums.old result
        store.new sums.new }
    ensures schema { store.new.schema ≡ store.old.schema }
{
    match requests_of(alloc, schema, round) {
        Ok(requests) => carry_all(store, sums, requests),
        Err(OutOfMemory) => Err(StepFault::OutOfMemory),
    }
}

// Carries out some requests.
fn carry_all<D: Disk>(
    store: &mut Store<D>,
    sums: &mut Sums,
    requests: Vec<Request>,
) -> Result<(), StepFault>
    requires { All (IsOneOf store.old.schema) requests.items }
    ensures all { CarriesAll D.faults requests.items store.old sums.old result store.new sums.new }
    ensures schema { store.new.schema ≡ store.old.schema }
{
    for request in requests {
        carry_on(store, sums, request)?;
    }
    Ok(())
}

// Carries out the next request.
fn carry_on<D: Disk>(
    store: &mut Store<D>,
    sums: &mut Sums,
    request: Request,
) -> Result<(), StepFault>
    requires { IsOneOf store.old.schema request }
    ensures on { CarriesOn D.faults request store.old sums.old result store.new sums.new }
    ensures schema { store.new.schema ≡ store.old.schema }
{
    match sums.requests.checked_add(1) {
        Some(next) => advance(store, sums, next, request),
        None => Err(StepFault::OutOfMemory),
    }
}

// Carries out the next request, behind which there are so many.
fn advance<D: Disk>(
    store: &mut Store<D>,
    sums: &mut Sums,
    next: u64,
    request: Request,
) -> Result<(), StepFault>
    requires one { IsOneOf store.old.schema request }
    requires next { next ≡ sums.old.requests + 1 }
    ensures on { CarriesOn D.faults request store.old sums.old result store.new sums.new }
    ensures schema { store.new.schema ≡ store.old.schema }
{
    if request.is_change() {
        enter(store, sums, next, request)
    } else {
        count(store, sums, next, &request)
    }
}

// Enters a change.
fn enter<D: Disk>(
    store: &mut Store<D>,
    sums: &mut Sums,
    next: u64,
    request: Request,
) -> Result<(), StepFault>
    requires one { IsOneOf store.old.schema request }
    requires change { IsChange request }
    requires next { next ≡ sums.old.requests + 1 }
    ensures on { CarriesOn D.faults request store.old sums.old result store.new sums.new }
    ensures schema { store.new.schema ≡ store.old.schema }
{
    let entry = Entry {
        seat: 0,
        moment: sums.requests,
        size: 0,
        request,
    };
    match store.step(entry) {
        Ok(reply) => {
            sums.requests = next;
            sums.locked = sum_of(sums.locked, taken_in(&reply));
            Ok(())
        }
        Err(fault) => Err(fault),
    }
}

// Counts what a read finds.
fn count<D: Disk>(
    store: &mut Store<D>,
    sums: &mut Sums,
    next: u64,
    request: &Request,
) -> Result<(), StepFault>
    requires one { IsOneOf store.old.schema request.now }
    requires read { IsChange request.now → ⊥ }
    requires next { next ≡ sums.old.requests + 1 }
    ensures on { CarriesOn D.faults request.now store.old sums.old result store.new sums.new }
    ensures schema { store.new.schema ≡ store.old.schema }
{
    match store.read(sums.requests, request) {
        Ok(reply) => {
            sums.requests = next;
            sums.matched = sum_of(sums.matched, matched_in(&reply));
            Ok(())
        }
        Err(OutOfMemory) => Err(StepFault::OutOfMemory),
    }
}

// How many features a reply says that were counted.
fn matched_in(reply: &Reply) -> u64
    ensures { result ≡ matched_in reply.now }
{
    match reply {
        Reply::Collection { matched, .. } => *matched,
        _ => 0,
    }
}

// How many features a reply says that a lock took.
fn taken_in(reply: &Reply) -> u64
    ensures { result ≡ taken_in reply.now }
{
    match reply {
        Reply::Locked { taken, .. } => taken.items().len() as u64,
        _ => 0,
    }
}

// A sum, where it still has 64 bits.
fn sum_of(sum: Option<u64>, more: u64) -> Option<u64>
    ensures { (n : ℕ) → IsSum sum n → IsSum result (n + more) }
{
    match sum {
        Some(sum) => sum.checked_add(more),
        None => None,
    }
}
