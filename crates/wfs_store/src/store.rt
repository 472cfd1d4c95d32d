//! The store: its steps, and what it tells.

ghost use Rattle.std.specs.Prelude.{◌≡◌, ◌≤◌, [], All, IfOk, length};
ghost use Rattle.std.specs.Option.{option_map};
ghost use Rattle.disk_core.specs.Sides.{EveryBoth};
ghost use Rattle.durable_journal.specs.Standing.{SaysWith};
ghost use Rattle.feature_schema.specs.Rules.{KeepsRules};
ghost use Rattle.query_docs.specs.Reading.{IsKeptText};
ghost use Rattle.wfs_model.specs.Changing.{IsChange};
ghost use Rattle.wfs_model.specs.OfSchema.{IsOfSchema, stored_in};
ghost use Rattle.wfs_model.specs.Read.{read};
ghost use Rattle.wfs_model.specs.State.{clamped};
ghost use Rattle.wfs_store.specs.Compacted.{IsCompactionOf};
ghost use Rattle.wfs_store.specs.Held.{kept_of};
ghost use Rattle.wfs_store.specs.Kept.{length_after};
ghost use Rattle.wfs_store.specs.Past.{last_made};
ghost use Rattle.wfs_store.specs.Stepped.{IsStepOf};

use crate::StepFault;
use crate::compacting::make_shorter;
use crate::course::Course;
use crate::stepping::take_step;
use disk_core::{Disk, Pair};
use feature_journal::Journal;
use feature_values::Schema;
use feature_versions::Features;
use journal_replay::Bodies;
use std::marker::Model;
use wfs_ends::Mem;
use wfs_model::{Change, Entry, Reply, Request};

/// The service's state in memory and on its two disks: a step is planned, journaled and applied, or nothing happened.
///
/// Contracts see the schema, the limits, the state in which this opening began, the history of this opening, how long the journal's side was
/// at the beginning, which side is current, and its generation, the change that a fault left begun, how many steps of each seat ended in a store
/// fault, and the disks. At each moment the disks stand for what the history leaves, or for that with the one change that is begun.
#[derive(Drop)]
pub struct Store<D: Disk> {
    pub(crate) course: Course,
    pub(crate) journal: Journal<D>,
    // those that were recovered: they fix the state in which this opening began
    pub(crate) bodies: Bodies,
    pub(crate) side: u64,
    pub(crate) begun: Option<Change>,
    pub(crate) tally: [u64; 17],
}

impl<D: Disk> Model for Store<D> {
    ghost use Rattle.std.specs.Coded.{codes};
    ghost use Rattle.durable_journal.specs.Current.{current_in};
    ghost use Rattle.feature_journal.specs.Kept.{disks_of};
    ghost use Rattle.fes_filter.specs.contracts.filter.Filter as filter_row;
    ghost use Rattle.wfs_store.specs.Held.{Held};

    ghost Value = { Held D };

    ghost coded = { Prim.hlevel (codes, filter_row.the_row.coded, D.code) };

    ghost use Rattle.wfs_store.specs.Kept.{IsStore, opening_on};

    ghost view = { λ s. record {
      schema = s.course.state.schema;
      limits = s.course.limits;
      opening = opening_on s.course.state.schema s.bodies;
      entries = s.course.history.items;
      side = s.side;
      current = current_in s.journal;
      begun = s.begun;
      tally = s.tally;
      disks = disks_of s.journal;
    } };

    ghost invariant = { λ s. IsStore D.images s.course s.journal s.bodies s.side s.begun };
}

impl<D: Disk> Store<D> {
    /// Takes up an entry: it is judged and planned, all memory for it is taken, its change is recorded, and then it is carried out, which
    /// cannot fail. A request that changes nothing that outlives the process asks no disk.
    ///
    /// # Errors
    ///
    /// State and history are then as before. `StoreFault`: a disk failed; the change may be begun, or the one that was begun before. `Full`:
    /// the entry would pass a limit, and this is the first. `OutOfMemory`.
    pub fn step(&mut self, entry: Entry) -> Result<Reply, StepFault>
        requires change { IsChange entry.request }
        requires fitting { IsOfSchema self.old.schema entry.request }
        requires texts { All (IsKeptText self.old.schema) (stored_in entry.request) }
        requires seat { entry.seat ≤ 16 }
        ensures { IsStepOf D.moment D.since D.faults self.old entry result self.new }
    {
        take_step(
            &mut self.course,
            &mut self.journal,
            &mut self.begun,
            &mut self.tally,
            entry,
        )
    }

    /// Answers a read, and prints this moment, 200,000,000,000 at the most. `OutOfMemory`: memory ran out.
    pub fn read(&self, moment: u64, request: &Request) -> Mem<Reply>
        requires read { IsChange request.now → ⊥ }
        requires fitting { IsOfSchema self.now.schema request.now }
        ensures { IfOk result (λ reply. reply ≡ read self.now.schema (kept_of self.now)
            (clamped moment) request.now) }
    {
        self.course.state.read(moment, request)
    }

    /// How many entries the history has.
    pub fn entries(&self) -> u64
        ensures { result ≡ length self.now.entries }
    {
        self.course.history.len() as u64
    }

    /// The schema that it serves, which keeps the rules of a schema file.
    pub fn schema(&self) -> &Schema
        ensures schema { result.now ≡ self.now.schema }
        ensures rules { KeepsRules self.now.schema }
    {
        self.course.state.features().schema()
    }

    /// What outlives the process.
    pub fn features(&self) -> &Features
        ensures schema { result.now.schema ≡ self.now.schema }
        ensures kept { result.now.kept ≡ kept_of self.now }
    {
        self.course.state.features()
    }

    /// The change that the last entry made; none where it made none, or where there is no entry.
    pub fn last_change(&self) -> Option<&Change>
        ensures { option_map (λ change. change.now) result
            ≡ last_made self.now.schema self.now.opening self.now.entries }
    {
        self.course.last.as_ref()
    }

    /// How long the journal's side is, up to and with its ending gate.
    pub fn side_length(&self) -> u64
        ensures { result ≡ length_after self.now.schema self.now.side self.now.opening
            self.now.entries }
    {
        self.journal.side_length()
    }

    /// Makes the journal just a checkpoint of what is kept, on the side that was not current, with the next generation, where there is no history
    /// yet. It ends first what a fault left begun.
    ///
    /// # Errors
    ///
    /// `StoreFault`, only where a disk failed. `Full`, which names the side: the length of the checkpoint passes its limit, or the
    /// generation is the last one. `OutOfMemory`.
    pub fn compact(&mut self) -> Result<(), StepFault>
        requires { self.old.entries ≡ [] }
        ensures { IsCompactionOf D.moment D.since D.images D.faults self.old result self.new }
    {
        make_shorter(
            &self.course,
            &mut self.journal,
            &mut self.begun,
            &mut self.side,
        )
    }

    /// The two disks. It takes no memory.
    pub fn close(self) -> Pair<D>
        ensures { result ≡ self.disks }
    {
        let Store { journal, .. } = self;
        journal.into_disks()
    }
}

/// A crash now leaves what the history leaves, or that with the change that is begun. It is the contract of a function that does nothing.
pub fn stands<D: Disk>(store: &Store<D>)
    ensures { EveryBoth D.images (SaysWith store.now.schema (kept_of store.now) store.now.begun)
        store.now.disks }
{
    durable_journal::stands(&store.journal);
}
