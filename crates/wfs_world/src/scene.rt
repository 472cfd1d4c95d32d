//! What is known of all seats between any two events: the journal, the history, who waits and who is in turn.

ghost use Rattle.std.specs.Prelude.{◌≡◌, ◌<◌, ◌++◌, IfOk, replicate, vec_len, vec_capacity};
ghost use Rattle.std.specs.Option.{option_to_list};
ghost use Rattle.wfs_world.specs.Scene.{first_scene};

use crate::turn::Turn;
use feature_values::Schema;
use std::alloc::Global;
use std::collections::VecDeque;
use std::marker::Model;
use wfs_ends::Mem;
use wfs_model::{Change, Entry};

/// Some seats that share one machine and its journal, without the machine. Contracts see the lists that it is made of; each of its methods
/// tells what it leaves of them.
#[derive(Drop)]
pub(crate) struct Scene {
    pub schema: Schema,
    pub number: u64,
    // how many changes the journal had when this opening began
    pub found: usize,
    pub entries: Vec<Entry>,
    pub line: VecDeque<Entry>,
    pub turn: Option<Turn>,
    pub fronts: Vec<u64>,
    pub journal: Vec<Change>,
    pub begun: Option<Change>,
    pub is_up: bool,
}

impl Model for Scene {
    ghost use Rattle.std.specs.Prelude.{◌≤◌, take, length};
    ghost use Rattle.std.specs.Coded.{codes};
    ghost use Rattle.fes_filter.specs.contracts.filter.Filter as filter_row;
    ghost use Rattle.wfs_world.specs.Scene.{Scene};

    ghost Value = { Scene };

    ghost coded = { Prim.hlevel (codes, filter_row.the_row.coded) };

    ghost view = { λ w. record {
      schema = w.schema;
      seats = length w.fronts.items;
      number = w.number;
      found = take w.found w.journal.items;
      entries = w.entries.items;
      line = w.line.items;
      turn = w.turn;
      fronts = w.fronts.items;
      journal = w.journal.items;
      begun = w.begun;
      is_up = w.is_up;
    } };

    ghost invariant = { λ w. w.found ≤ length w.journal.items };
}

// So many zeros.
fn zeros(alloc: Global, count: u32) -> Mem<Vec<u64>>
    ensures { IfOk result (λ zeros. zeros.items ≡ replicate count 0) }
{
    let mut zeros = Vec::with_capacity(alloc, count as usize)?;
    for _ in 0..count {
        zeros.push(0)?;
    }
    Ok(zeros)
}

/// One item more, where there is one. There is a place for it.
pub(crate) fn push_some<T>(items: &mut Vec<T>, item: Option<T>)
    requires { vec_len items.old < vec_capacity items.old }
    ensures { items.new.items ≡ items.old.items ++ option_to_list item }
{
    if let Some(item) = item {
        items.push_reserved(item);
    }
}

/// A value in the place of another. What drops the other is proved here once, and not in each method anew.
pub(crate) fn set<T: Drop>(place: &mut T, value: T)
    ensures { place.new ≡ value }
{
    *place = value;
}

impl Scene {
    /// The first opening, with so many seats and nothing in it.
    pub fn new(alloc: Global, schema: Schema, seats: u32) -> Mem<Scene>
        ensures { IfOk result (λ w. w ≡ first_scene schema seats) }
    {
        let fronts = zeros(alloc, seats)?;
        Ok(Scene {
            schema,
            number: 1,
            found: 0,
            entries: Vec::new(alloc),
            line: VecDeque::new(alloc),
            turn: None,
            fronts,
            journal: Vec::new(alloc),
            begun: None,
            is_up: true,
        })
    }

    /// The schema of the service.
    pub fn schema(&self) -> &Schema
        ensures { result.now ≡ self.now.schema }
    {
        &self.schema
    }

    /// The number of this opening.
    pub fn number(&self) -> u64
        ensures { result ≡ self.now.number }
    {
        self.number
    }

    /// Whether there is a process.
    pub fn is_up(&self) -> bool
        ensures { result ≡ self.now.is_up }
    {
        self.is_up
    }

    /// The changes that the journal has.
    pub fn journal(&self) -> &[Change]
        ensures { result.now ≡ self.now.journal }
    {
        &self.journal
    }

    /// The changes that the journal had when this opening began.
    pub fn found(&self) -> &[Change]
        ensures { result.now ≡ self.now.found }
    {
        &self.journal[..self.found]
    }

    /// The history of this opening.
    pub fn entries(&self) -> &[Entry]
        ensures { result.now ≡ self.now.entries }
    {
        &self.entries
    }
}
