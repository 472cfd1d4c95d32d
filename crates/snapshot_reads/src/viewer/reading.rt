//! What a viewer does.

ghost use Rattle.std.specs.Prelude.{◌≡◌, ◌<◌, ◌+◌, [], All, length, max};
ghost use mathlib.Core.List.{IsPrefix};
ghost use Rattle.left_right.specs.Sides.{view};
ghost use Rattle.wfs_model.specs.Changing.{IsChange};
ghost use Rattle.snapshot_reads.specs.Pairs.{AreOfOne, IsPairOf, Stands, head_of};
ghost use Rattle.snapshot_reads.specs.Rules.{pair_of};
ghost use Rattle.snapshot_reads.specs.Viewers.{IsSame, ReadsAs, Tells, entered_of, schema_of};
ghost use Rattle.snapshot_reads.specs.Whole.{KnowsOf};

use super::{Viewed, Viewer};
use crate::book::{Law, Pair, see_all};
use crate::rule::{Knows, Published, Reads};
use crate::shown::Shown;
use left_right::reader::Reader;
use logbook::{Seen, Word};
use std::alloc::Global;
use std::sync::Wait;
use stored_queries::answer;
use wfs_ends::Mem;
use wfs_model::{LAST_MOMENT, Request};

type Eyes = Reader<Shown, Knows, Published>;

// What is given for what is published.
fn view_of(alloc: Global, shown: &Shown, told: u64, moment: u64, request: &Request) -> Mem<Viewed>
    requires { IsChange request.now → ⊥ }
    ensures { Tells told moment request.now (pair_of shown.now) result }
{
    if shown.front < told {
        return Ok(Viewed::Behind(shown.front));
    }
    let features = shown.snapshot.features();
    let moment = moment.min(LAST_MOMENT);
    let reply = answer(
        alloc,
        features,
        features.stored(),
        features.schema(),
        moment,
        request,
    )?;
    Ok(Viewed::Answer(reply, shown.front))
}

// Enters what is published once, answers from it, and leaves.
fn enter(
    alloc: Global,
    reader: Eyes,
    seen: &mut Seen<Pair, (), Law>,
    told: u64,
    moment: u64,
    request: &Request,
) -> (Eyes, Mem<Viewed>)
    requires read { IsChange request.now → ⊥ }
    requires of { KnowsOf (view reader.place) seen.old.book }
    requires entered { All (Stands seen.old.log) (view reader.place).entered }
    ensures of { KnowsOf (view result.0.place) seen.new.book }
    ensures entered { All (Stands seen.new.log) (view result.0.place).entered }
    ensures book { seen.new.book ≡ seen.old.book }
    ensures more { IsPrefix seen.old.log seen.new.log }
    ensures reads { ReadsAs told moment request.now (view reader.place).entered result.1
        (view result.0.place).entered }
{
    let reading = match reader.enter_as::<Reads>() {
        Ok(reading) => reading,
        Err(reader) => return (reader, Ok(Viewed::Gone)),
    };
    let shown = reading.get();
    seen.learn(&shown.seen);
    let viewed = view_of(alloc, shown, told, moment, request);
    (reading.leave(), viewed)
}

impl Viewer {
    /// A viewer of a history, that has read nothing.
    pub(crate) fn of(reader: Eyes, seen: Seen<Pair, (), Law>) -> Viewer
        requires some { 0 < length seen.log }
        requires of { KnowsOf (view reader.place) seen.book }
        requires entered { (view reader.place).entered ≡ [] }
        ensures entered { entered_of result ≡ [] }
        ensures seen { result.seen ≡ seen }
        ensures told { result.told ≡ 0 }
    {
        Viewer {
            reader: Some(reader),
            seen,
            told: 0,
        }
    }

    /// Answers a read from what is published, and prints this moment, 200,000,000,000 at the most. It enters once, and waits for nobody.
    /// `OutOfMemory`: memory ran out.
    pub fn read(&mut self, alloc: Global, moment: u64, request: &Request) -> Mem<Viewed>
        requires { IsChange request.now → ⊥ }
        ensures same { IsSame self.old self.new }
        ensures told { self.new.told ≡ self.old.told }
        ensures reads { ReadsAs self.old.told moment request.now (entered_of self.old) result
            (entered_of self.new) }
        ensures given { All (Stands self.new.seen.log) (entered_of self.new) }
        ensures pairs { All (IsPairOf (schema_of self.new)) (entered_of self.new) }
    {
        let Some(reader) = self.reader.take() else {
            unreachable!()
        };
        let (reader, viewed) = enter(alloc, reader, &mut self.seen, self.told, moment, request);
        self.reader = Some(reader);
        // of one schema are all pairs that it has seen
        let known = self.seen.again();
        self.seen.learn(&known);
        viewed
    }

    /// Takes in a history that another has seen.
    pub(crate) fn learn(&mut self, seen: &Seen<Pair, (), Law>)
        requires { self.old.seen.book ≡ seen.now.book }
        ensures same { IsSame self.old self.new }
        ensures told { self.new.told ≡ self.old.told }
        ensures entered { entered_of self.new ≡ entered_of self.old }
        ensures known { All (λ p. p.front < length seen.now.log → Stands seen.now.log p)
            (entered_of self.new) }
    {
        self.seen.learn(seen);
    }

    /// Takes in the whole history.
    pub(crate) fn learn_all<R: Wait>(
        &mut self,
        rt: &R,
        head: &Word<Pair, (), Law>,
        seen: &Seen<Pair, (), Law>,
        last: u64,
    )
        requires book { self.old.seen.book ≡ seen.now.book }
        requires head { head.now ≡ head_of seen.now.book }
        requires whole { length seen.now.log ≡ last + 1 }
        ensures same { IsSame self.old self.new }
        ensures told { self.new.told ≡ self.old.told }
        ensures entered { entered_of self.new ≡ entered_of self.old }
        ensures known { All (Stands seen.now.log) (entered_of self.new) }
    {
        self.seen.learn(seen);
        see_all(rt, head, &mut self.seen, last);
    }

    /// Tells it a front. No later answer is from a pair below it.
    pub fn tell(&mut self, front: u64)
        ensures same { IsSame self.old self.new }
        ensures told { self.new.told ≡ max self.old.told front }
        ensures entered { entered_of self.new ≡ entered_of self.old }
    {
        self.told = self.told.max(front);
    }
}
