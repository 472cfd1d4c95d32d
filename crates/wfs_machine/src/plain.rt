//! The plain machine: its state, its beginning, its steps and its reads.

ghost use Rattle.std.specs.Prelude.{◌≡◌, IfOk, OnErr, replicate};
ghost use Rattle.wfs_model.specs.Changing.{IsChange};
ghost use Rattle.wfs_model.specs.Kept.{IsKept};
ghost use Rattle.wfs_model.specs.OfSchema.{IsOfSchema};
ghost use Rattle.wfs_model.specs.Read.{read};
ghost use Rattle.wfs_model.specs.State.{first_machine, opened, durable, clamped, moment_in};
ghost use Rattle.wfs_model.specs.Step.{step};
ghost use Rattle.wfs_machine.specs.Kept.{IsRunning};
ghost use Rattle.wfs_machine.specs.Told.{IsNext};

use feature_values::{Feature, Schema};
use lock_table::LockTable;
use std::alloc::Global;
use std::marker::Model;
use stored_queries::{Stored, answer};
use wfs_ends::{List, Mem};
use wfs_model::{Entry, LAST_MOMENT, Reply, Request};

/// The plain machine: it takes the steps of the service one by one. Contracts see it as the schema that it serves and the
/// service's state.
#[derive(Drop)]
pub struct Plain {
    pub(crate) alloc: Global,
    pub(crate) schema: Schema,
    // in default order
    pub(crate) features: Vec<Feature>,
    // how many numbers were given, by type
    pub(crate) counters: List<u64>,
    pub(crate) stored: Stored,
    pub(crate) opening: u64,
    pub(crate) locks: LockTable,
    // how many locks were granted in this opening
    pub(crate) given: u64,
    pub(crate) last: u64,
}

impl Model for Plain {
    ghost use Rattle.std.specs.Coded.{codes};
    ghost use Rattle.fes_filter.specs.contracts.filter.Filter as filter_row;
    ghost use Rattle.wfs_model.specs.State.{Machine};
    ghost use Rattle.wfs_machine.specs.Kept.{IsRunning};

    ghost Value = { Machine };

    ghost coded = { Prim.hlevel (codes, filter_row.the_row.coded) };

    ghost view = { λ m. record {
      schema = m.schema;
      state = record {
        features = m.features.items;
        counters = m.counters;
        stored = m.stored.list;
        opening = m.opening;
        locks = m.locks.locks;
        given = m.given;
        last = m.last;
      };
    } };

    ghost invariant = { λ m. IsRunning m.schema
        (record {
          features = m.features.items;
          counters = m.counters;
          stored = m.stored.list;
          opening = m.opening;
          locks = m.locks.locks;
          given = m.given;
          last = m.last;
        }) m.locks };
}

// No number was given of any type.
fn no_numbers(alloc: Global, types: usize) -> Mem<List<u64>>
    ensures { IfOk result (λ counters. counters ≡ replicate types 0) }
{
    let mut counters = Vec::with_capacity(alloc, types)?;
    for _ in 0..types {
        counters.push(0)?;
    }
    Ok(List::of(counters))
}

impl Plain {
    /// The machine of the first opening, with nothing in it.
    pub fn new(alloc: Global, schema: Schema) -> Mem<Plain>
        ensures { IfOk result (λ m. m ≡ first_machine schema) }
    {
        let counters = no_numbers(alloc, schema.types.items().len())?;
        Ok(Plain {
            alloc,
            schema,
            features: Vec::new(alloc),
            counters,
            stored: Stored::new(alloc),
            opening: 1,
            locks: LockTable::new(alloc, 1),
            given: 0,
            last: 0,
        })
    }

    /// The moment at which an entry is taken up that comes at this moment: never before the last one, and 200,000,000,000 at
    /// the most.
    pub fn moment_of(&self, moment: u64) -> u64
        ensures value { result ≡ moment_in self.now.state moment }
        ensures next { IsNext self.now.state result }
    {
        moment.min(LAST_MOMENT).max(self.last)
    }

    /// What outlives the process is kept well at any time, so a change that the machine makes may be applied.
    pub fn keeps_well(&self)
        ensures { IsKept self.now.schema (durable self.now.state) }
    {
        let _ = self.listed();
    }

    /// Takes a step: carries the entry's request out at the moment at which it is taken up, and answers it (OGC 09-025r2, sections 12
    /// to 15). Where memory runs out, the machine is as before, and so it is where a type would have given more numbers, or the opening
    /// more locks, than 64 bits hold.
    #[tactic(auto, unfolding(wfs_model::specs::Step::step))]
    pub fn step(&mut self, entry: &Entry) -> Mem<Reply>
        requires change { IsChange entry.now.request }
        requires fitting { IsOfSchema self.old.schema entry.now.request }
        ensures ok { IfOk result (λ reply. (reply, self.new.state)
            ≡ step self.old.schema self.old.state (moment_in self.old.state entry.now.moment)
            entry.now.request) }
        ensures err { OnErr result (self.new ≡ self.old) }
        ensures schema { self.new.schema ≡ self.old.schema }
    {
        let moment = self.moment_of(entry.moment);
        match &entry.request {
            Request::GetLocked {
                present,
                asked,
                take,
                period,
            } => self.lock_page(moment, present, asked.items(), *take, *period),
            Request::Lock {
                asked,
                take,
                period,
            } => self.lock(moment, asked.items(), *take, *period),
            Request::Renew { lock, period } => self.renew(moment, *lock, *period),
            Request::Transact { .. } => self.transact(moment, &entry.request),
            Request::CreateStored(definitions) => self.create(moment, definitions),
            Request::DropStored(id) => self.drop_stored(moment, id),
            _ => unreachable!(),
        }
    }

    /// Answers a read, and prints this moment, 200,000,000,000 at the most (OGC 09-025r2, sections 8 to 11 and 14).
    pub fn read(&self, moment: u64, request: &Request) -> Mem<Reply>
        requires { IsChange request.now → ⊥ }
        ensures { IfOk result (λ reply. reply ≡ read self.now.schema (durable self.now.state)
            (clamped moment) request.now) }
    {
        let moment = moment.min(LAST_MOMENT);
        answer(
            self.alloc,
            self,
            &self.stored,
            &self.schema,
            moment,
            request,
        )
    }

    /// Begins an opening of this number on what outlives the process. It takes no memory.
    pub fn reopen(&mut self, opening: u64)
        ensures state { self.new.state ≡ opened (durable self.old.state) opening }
        ensures schema { self.new.schema ≡ self.old.schema }
    {
        self.locks = LockTable::new(self.alloc, opening);
        self.opening = opening;
        self.given = 0;
        self.last = 0;
    }
}
