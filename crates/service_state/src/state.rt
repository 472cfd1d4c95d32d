//! The state: its beginning, plans of requests, their carrying out, and reads.

ghost use Rattle.std.specs.Prelude.{◌≡◌, ◌<◌, ◌≤◌, All, IfOk, OnOk, None};
ghost use Rattle.request_plans.specs.Carried.{HasRoom};
ghost use Rattle.request_plans.specs.Plan.{carried};
ghost use Rattle.service_state.specs.Passed.{IsPassedBy, Judges};
ghost use Rattle.service_state.specs.Running.{IsPlanIn, IsPrepared, Prepares, IsStep, answered};
ghost use Rattle.wfs_model.specs.Changing.{IsChange};
ghost use Rattle.wfs_model.specs.OfSchema.{IsOfSchema};
ghost use Rattle.wfs_model.specs.Playable.{most_number};
ghost use Rattle.wfs_model.specs.State.{durable, moment_in, opened};

use crate::carrying::{carry_out, play, reserve};
use crate::fault::PrepareFault;
use crate::passing::{at_limit, features_passed, ids_passed, locks_passed, stored_passed};
use feature_versions::Features;
use fes_filter::Steps;
use lock_table::LockTable;
use request_plans::{Basis, Plan, plan_request};
use std::alloc::Global;
use std::marker::{Brand, Model};
use std::sync::ledger::{Blank, Ledger};
use stored_queries::answer;
use wfs_ends::Mem;
use wfs_model::{FullAt, LAST_MOMENT, LimitName, Limits, Reply, Request};

/// The service's state in memory. Contracts see it as the schema that it serves, the state, and for how much more there is room.
#[derive(Drop)]
pub struct ServiceState {
    pub(crate) alloc: Global,
    // what outlives the process
    pub(crate) features: Features,
    pub(crate) locks: LockTable,
    // how many locks were granted in this opening
    pub(crate) given: u64,
    // the last moment, in whole seconds since 1970
    pub(crate) last: u64,
}

impl Model for ServiceState {
    ghost use Rattle.std.specs.Coded.{codes};
    ghost use Rattle.fes_filter.specs.contracts.filter.Filter as filter_row;
    ghost use Rattle.service_state.specs.Running.{IsState, Running, state_of};

    ghost Value = { Running };

    ghost coded = { Prim.hlevel (codes, filter_row.the_row.coded) };

    ghost view = { λ s. record {
      schema = s.features.schema;
      state = state_of s.features.kept s.given s.last s.locks;
      room = s.features.room;
      table = s.locks;
    } };

    ghost invariant = { λ s. IsState s.features.schema s.features.kept s.given s.last s.locks };
}

impl ServiceState {
    /// The state in which an opening begins on what outlives the earlier ones, which has the opening's number already. It takes no memory.
    pub fn open(alloc: Global, features: Features) -> ServiceState
        requires { All (λ n. n ≤ most_number) features.kept.counters }
        ensures schema { result.schema ≡ features.schema }
        ensures state { result.state ≡ opened features.kept features.kept.opening }
    {
        let _schema = features.schema();
        let locks = LockTable::new(alloc, features.openings());
        ServiceState {
            alloc,
            features,
            locks,
            given: 0,
            last: 0,
        }
    }

    /// What outlives the process: the features, the counters, the stored queries, and the number of the opening.
    pub fn features(&self) -> &Features
        ensures schema { result.now.schema ≡ self.now.schema }
        ensures kept { result.now.kept ≡ durable self.now.state }
    {
        &self.features
    }

    /// The number of the opening.
    pub fn opening(&self) -> u64
        ensures { result ≡ self.now.state.opening }
    {
        self.features.openings()
    }

    /// The last moment, in whole seconds since 1970; 0 before the first step.
    pub fn last(&self) -> u64
        ensures value { result ≡ self.now.state.last }
        ensures most { result ≤ 200_000_000_000 }
    {
        self.last
    }

    /// The moment at which an entry is taken up that comes at this moment: never before the last one, and 200,000,000,000 at the most.
    pub fn moment_of(&self, moment: u64) -> u64
        ensures value { result ≡ moment_in self.now.state moment }
        ensures later { self.now.state.last ≤ result }
        ensures most { result ≤ 200_000_000_000 }
    {
        moment.min(LAST_MOMENT).max(self.last)
    }

    /// What a changing request comes to at a moment that is not before the last one. Nothing is changed. `OutOfMemory`: memory ran out.
    pub fn plan(&self, moment: u64, request: &Request) -> Mem<Plan>
        requires change { IsChange request.now }
        requires fitting { IsOfSchema self.now.schema request.now }
        requires later { self.now.state.last ≤ moment }
        ensures { IfOk result (IsPlanIn self.now moment request.now) }
    {
        plan_under::<Brand>(self, moment, request, Blank::new(1))
    }

    // The first limit that a plan would pass. Where it passes none, there is room for the lock that it grants.
    fn would_pass(&mut self, plan: &Plan, moment: u64, limits: &Limits) -> Mem<Option<FullAt>>
        requires { self.old.state.last ≤ moment }
        ensures passed { IfOk result (IsPassedBy limits.now self.old moment plan.now) }
        ensures room { IfOk result (λ passed. passed ≡ None
            → HasRoom plan.now.lock self.new.table) }
        ensures state { self.new.state ≡ self.old.state }
        ensures schema { self.new.schema ≡ self.old.schema }
    {
        let count = self.features.count();
        let queries = self.features.stored().list().len() as u64;
        let locks = locks_passed(&plan.lock, &mut self.locks, moment, limits.locks)?;
        let features = features_passed(&plan.reply, limits.features, count);
        let ids = ids_passed(&plan.change, limits.ids, self.features.counters().items());
        let stored = stored_passed(&plan.change, limits.stored, queries);
        Ok(
            at_limit(LimitName::Features, features)
                .or(at_limit(LimitName::Ids, ids))
                .or(at_limit(LimitName::Locks, locks))
                .or(at_limit(LimitName::Stored, stored)),
        )
    }

    /// Judges a plan by the limits that the state itself tells, those of features, numbers given, live locks and stored queries, in this order,
    /// and takes all memory that carrying it out needs at its moment. The state stays as it is. Where all is prepared, the step gives
    /// no number above 1,000,000,000,000.
    ///
    /// # Errors
    ///
    /// `Full` with the first limit that would be passed, where one would be, and `OutOfMemory`.
    pub fn prepare(&mut self, plan: &Plan, moment: u64, limits: &Limits) -> Result<(), PrepareFault>
        requires { self.old.state.last ≤ moment }
        ensures full { Judges limits.now self.old moment plan.now result }
        ensures prepared { OnOk result (Prepares self.old self.new moment plan.now) }
        ensures state { self.new.state ≡ self.old.state }
        ensures schema { self.new.schema ≡ self.old.schema }
    {
        if let Some(at) = self.would_pass(plan, moment, limits)? {
            return Err(PrepareFault::Full(at));
        }
        reserve(&mut self.features, &plan.change)?;
        Ok(())
    }

    /// Carries out a plan that is prepared for its moment, and answers its reply. It takes no memory.
    pub fn carry(&mut self, plan: Plan, moment: u64) -> Reply
        requires prepared { IsPrepared plan moment self.old }
        requires later { self.old.state.last ≤ moment }
        requires last { moment ≤ 200_000_000_000 }
        ensures reply { result ≡ plan.reply }
        ensures state { self.new.state ≡ carried plan self.old.state moment }
        ensures step { IsStep self.old moment plan (result, self.new.state) }
        ensures schema { self.new.schema ≡ self.old.schema }
    {
        let Plan {
            reply,
            change,
            lock,
        } = plan;
        play(&mut self.features, change);
        self.given = carry_out(lock, &mut self.locks, moment, self.given);
        self.last = moment;
        reply
    }

    /// Answers a read, and prints this moment, 200,000,000,000 at the most (OGC 09-025r2, sections 8 to 11 and 14). `OutOfMemory`: memory
    /// ran out.
    pub fn read(&self, moment: u64, request: &Request) -> Mem<Reply>
        requires { IsChange request.now → ⊥ }
        ensures { IfOk result (λ reply. reply ≡ answered self.now moment request.now) }
    {
        let features = &self.features;
        let moment = moment.min(LAST_MOMENT);
        answer(
            self.alloc,
            features,
            features.stored(),
            features.schema(),
            moment,
            request,
        )
    }
}

// What a request comes to, with a counter of steps that nobody asks.
fn plan_under<L: Ledger>(
    state: &ServiceState,
    moment: u64,
    request: &Request,
    blank: Blank,
) -> Mem<Plan>
    requires change { IsChange request.now }
    requires fitting { IsOfSchema state.now.schema request.now }
    requires later { state.now.state.last ≤ moment }
    requires name { blank.name ≡ L.name }
    requires parts { blank.parts ≡ L.parts }
    requires some { 0 < blank.parts }
    ensures { IfOk result (IsPlanIn state.now moment request.now) }
{
    let mut steps = Steps::<L>::new(blank);
    let features = &state.features;
    let basis = Basis {
        schema: features.schema(),
        counters: features.counters(),
        stored: features.stored().list(),
        locks: &state.locks,
        opening: features.openings(),
        given: state.given,
        moment,
    };
    plan_request(state.alloc, features, &basis, request, &mut steps)
}
