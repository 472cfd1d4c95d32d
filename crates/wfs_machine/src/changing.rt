//! Changes of what outlives the process: the one that an entry makes, and how one that was kept is played.

ghost use Rattle.std.specs.Prelude.{◌≡◌, ◌≤◌, List, Result, IfOk, OnOk, OnErr, is_ok};
ghost use Rattle.wfs_model.specs.declared.change.Change.TheVariants.{Rows, Created, Dropped, Base};
ghost use Rattle.wfs_model.specs.declared.change.Part.{Part};
ghost use Rattle.wfs_model.specs.declared.reply.Refusal.{Refusal};
ghost use Rattle.wfs_model.specs.OfSchema.{IsOfSchema, actions_in};
ghost use Rattle.wfs_model.specs.Plans.{Planning};
ghost use Rattle.wfs_model.specs.Played.{change_of, if_accepted, rows_if, rows_of};
ghost use Rattle.wfs_model.specs.State.{moment_in};
ghost use Rattle.wfs_model.specs.Step.{plan_of};
ghost use Rattle.wfs_model.specs.Stored.{created, dropped};
ghost use Rattle.transaction_core.specs.Plan.{IsTransaction, lock_in};
ghost use Rattle.wfs_machine.specs.Kept.{KeepsWell, after_change};
ghost use Rattle.wfs_machine.specs.Told.{IsSaid};

use crate::Plain;
use crate::playing::play_rows;
use crate::storing::copies;
use std::mem::drop;
use transaction_core::{PlanFault, Planned};
use wfs_ends::{List, Mem, OutOfMemory, Text};
use wfs_model::{Change, Entry, Part, Request, StoredFault, StoredQuery};

// Changes of single features, where there are some.
fn if_some(change: Change) -> Option<Change>
    ensures { (parts : List Part) → change ≡ Rows parts → result ≡ rows_of parts }
{
    match &change {
        Change::Rows(parts) if parts.items().is_empty() => None,
        _ => Some(change),
    }
}

// The change of a plan, where it makes one.
fn change_in(planned: Planned) -> Option<Change>
    ensures { (parts : List Part) → planned.change ≡ Rows parts → result ≡ rows_of parts }
{
    let Planned { change, .. } = planned;
    if_some(change)
}

// A refusal makes no change.
fn no_change(fault: PlanFault) -> Mem<Option<Change>>
    ensures { (said : Result Planning Refusal) → IsSaid fault said
        → IfOk result (λ change. change ≡ rows_if said) }
{
    match fault {
        PlanFault::Refused(_) => Ok(None),
        PlanFault::OutOfMemory => Err(OutOfMemory),
    }
}

// Stored queries were made, or there was no memory for them.
fn if_made(made: Result<(), StoredFault>) -> Mem<()>
    ensures { is_ok result ≡ is_ok made }
{
    match made {
        Ok(()) => Ok(()),
        Err(_) => Err(OutOfMemory),
    }
}

impl Plain {
    // The change that a transaction makes, where it is accepted and makes one.
    fn rows(&self, moment: u64, request: &Request) -> Mem<Option<Change>>
        requires transaction { IsTransaction request.now }
        requires fitting { IsOfSchema self.now.schema request.now }
        requires later { self.now.state.last ≤ moment }
        ensures { IfOk result (λ change. change
            ≡ rows_if (plan_of self.now.schema self.now.state moment (lock_in request.now)
            (actions_in request.now))) }
    {
        match self.planned(moment, request) {
            Ok(planned) => Ok(change_in(planned)),
            Err(fault) => no_change(fault),
        }
    }

    // The change that new stored queries make, where they are accepted.
    fn creation(&self, definitions: &List<StoredQuery>) -> Mem<Option<Change>>
        ensures { IfOk result (λ change. change
            ≡ if_accepted (created self.now.state.stored definitions.now)
            (Created definitions.now)) }
    {
        if !self.stored.accepts(definitions.items()) {
            return Ok(None);
        }
        let definitions = copies(self.alloc, definitions.items())?;
        Ok(Some(Change::Created(definitions)))
    }

    // The change that the end of a stored query makes, where there is one.
    fn ending(&self, id: &Text) -> Mem<Option<Change>>
        ensures { IfOk result (λ change. change
            ≡ if_accepted (dropped self.now.state.stored id.now) (Dropped id.now)) }
    {
        if !self.stored.has(id.as_str()) {
            return Ok(None);
        }
        Ok(Some(Change::Dropped(id.copy(self.alloc)?)))
    }

    /// The change of what outlives the process that an entry would make if its step were taken now, where it would be accepted and
    /// make one. The machine stays as it is.
    #[tactic(auto, unfolding(wfs_model::specs::Played::change_of))]
    pub fn change_of(&self, entry: &Entry) -> Mem<Option<Change>>
        requires { IsOfSchema self.now.schema entry.now.request }
        ensures { IfOk result (λ change. change
            ≡ change_of self.now.schema self.now.state (moment_in self.now.state entry.now.moment)
            entry.now.request) }
    {
        match &entry.request {
            Request::Transact { .. } => self.rows(self.moment_of(entry.moment), &entry.request),
            Request::CreateStored(definitions) => self.creation(definitions),
            Request::DropStored(id) => self.ending(id),
            _ => Ok(None),
        }
    }

    // Plays changes of single features. Memory for all of them is taken first.
    fn play(&mut self, parts: List<Part>) -> Mem<()>
        requires { KeepsWell self.old.schema self.old.state (Rows parts) }
        ensures state { OnOk result (self.new.state ≡ after_change self.old.state (Rows parts)) }
        ensures err { OnErr result (self.new ≡ self.old) }
        ensures schema { self.new.schema ≡ self.old.schema }
    {
        self.features.reserve(parts.items().len())?;
        play_rows(self.alloc, &mut self.features, &mut self.counters, parts);
        Ok(())
    }

    // Adds stored queries, whose identifiers are new.
    fn add(&mut self, queries: List<StoredQuery>) -> Mem<()>
        requires { KeepsWell self.old.schema self.old.state (Created queries) }
        ensures state { OnOk result (self.new.state
            ≡ after_change self.old.state (Created queries)) }
        ensures err { OnErr result (self.new ≡ self.old) }
        ensures schema { self.new.schema ≡ self.old.schema }
    {
        if_made(self.stored.create(queries))
    }

    // Takes a stored query away, where it is there.
    fn take_away(&mut self, id: Text)
        requires { KeepsWell self.old.schema self.old.state (Dropped id) }
        ensures state { self.new.state ≡ after_change self.old.state (Dropped id) }
        ensures schema { self.new.schema ≡ self.old.schema }
    {
        drop(self.stored.drop_query(id));
    }

    // Begins an opening with these counters.
    fn begin(&mut self, opening: u64, counters: List<u64>)
        requires { KeepsWell self.old.schema self.old.state (Base opening counters) }
        ensures state { self.new.state ≡ after_change self.old.state (Base opening counters) }
        ensures schema { self.new.schema ≡ self.old.schema }
    {
        self.counters = counters;
        self.reopen(opening);
    }

    /// Plays a change that was kept, which keeps well what outlives the process. An opening begins without locks, and so does one
    /// that a checkpoint tells of. Where memory runs out, the machine is as before.
    #[tactic(auto, unfolding(wfs_model::specs::Played::played_one))]
    pub fn apply(&mut self, change: &Change) -> Mem<()>
        requires { KeepsWell self.old.schema self.old.state change.now }
        ensures state { OnOk result (self.new.state ≡ after_change self.old.state change.now) }
        ensures err { OnErr result (self.new ≡ self.old) }
        ensures schema { self.new.schema ≡ self.old.schema }
    {
        match change.copy(self.alloc)? {
            Change::Opening(opening) => self.reopen(opening),
            Change::Rows(parts) => self.play(parts)?,
            Change::Created(queries) => self.add(queries)?,
            Change::Dropped(id) => self.take_away(id),
            Change::Base { opening, counters } => self.begin(opening, counters),
        }
        Ok(())
    }
}
