//! What a publisher does.

ghost use Rattle.std.specs.Prelude.{◌≡◌, ◌↔◌, ◌⊎◌, ◌≤◌, ◌<◌, ◌+◌, ◌++◌, ◌∷◌, [], All, IsTrue, IfOk, OnOk, OnErr, drop, length, max, vec_capacity};
ghost use Rattle.std.specs.Option.{option_copied};
ghost use Rattle.left_right.specs.Sides.{view};
ghost use Rattle.snapshot_reads.specs.Content.{content_of};
ghost use Rattle.snapshot_reads.specs.Pairs.{pair, schema_in, Stands};
ghost use Rattle.snapshot_reads.specs.Publishers.{Follows, IsAbreast, IsBehind, given_of, shown_of};
ghost use Rattle.snapshot_reads.specs.Rules.{pair_of};
ghost use Rattle.snapshot_reads.specs.Viewers.{AreNew, IsSame, entered_of};
ghost use Rattle.snapshot_reads.specs.Whole.{KnowsOf, Sound};

use super::Publisher;
use crate::book::{Law, Pair, add, open};
use crate::other::Other;
use crate::shown::Shown;
use crate::snapshot::Snapshot;
use crate::steps::{Copies, begin, make_viewer, show};
use crate::viewer::Viewer;
use feature_versions::Features;
use logbook::Seen;
use std::alloc::Global;
use std::mem;
use std::sync::Wait;
use wfs_ends::{Mem, OutOfMemory};
use wfs_model::Change;

// Makes one viewer more, for which there is room.
fn push_viewer(writer: &mut Copies, seen: &Seen<Pair, (), Law>, viewers: &mut Vec<Option<Viewer>>)
    requires some { 0 < length seen.now.log }
    requires told { KnowsOf (view writer.old.desk.place) seen.now.book }
    requires room { length viewers.old.items < vec_capacity viewers.old }
    requires all { AreNew seen.now.book (schema_in seen.now.log) viewers.old.items }
    ensures shown { writer.new.desk.shown.value ≡ writer.old.desk.shown.value }
    ensures waiting { drop writer.new.behind writer.new.log.items
        ≡ drop writer.old.behind writer.old.log.items }
    ensures view { view writer.new.desk.place ≡ view writer.old.desk.place }
    ensures count { length viewers.new.items ≡ length viewers.old.items + 1 }
    ensures room { vec_capacity viewers.old ≤ vec_capacity viewers.new }
    ensures all { AreNew seen.now.book (schema_in seen.now.log) viewers.new.items }
{
    let viewer = make_viewer(writer, seen);
    viewers.push(viewer).unwrap();
}

// Makes so many viewers, for which there is room.
fn push_viewers(
    writer: &mut Copies,
    seen: &Seen<Pair, (), Law>,
    viewers: &mut Vec<Option<Viewer>>,
    count: u32,
)
    requires some { 0 < length seen.now.log }
    requires sound { Sound seen.now.log seen.now.book writer.old.desk.shown.value
        (drop writer.old.behind writer.old.log.items) (view writer.old.desk.place) }
    requires none { viewers.old.items ≡ [] }
    requires room { count ≤ vec_capacity viewers.old }
    ensures sound { Sound seen.now.log seen.now.book writer.new.desk.shown.value
        (drop writer.new.behind writer.new.log.items) (view writer.new.desk.place) }
    ensures shown { writer.new.desk.shown.value ≡ writer.old.desk.shown.value }
    ensures count { length viewers.new.items ≡ count }
    ensures all { AreNew seen.now.book (schema_in seen.now.log) viewers.new.items }
{
    for _ in 0..count {
        push_viewer(writer, seen, viewers);
    }
}

// The two copies that readers find, which are one.
fn first_copies<R: Wait>(
    rt: &R,
    alloc: Global,
    features: &Features,
    seen: &Seen<Pair, (), Law>,
    viewers: u32,
) -> Mem<Copies>
    requires some { 0 < viewers }
    requires given { seen.now.log ≡ pair 0 (content_of features.now) ∷ [] }
    ensures sound { IfOk result (λ w. Sound seen.now.log seen.now.book w.desk.shown.value
        (drop w.behind w.log.items) (view w.desk.place)) }
    ensures shown { IfOk result (λ w. pair_of w.desk.shown.value
        ≡ pair 0 (content_of features.now)) }
{
    let first = Shown {
        front: 0,
        snapshot: Snapshot::of(alloc, features.copy(alloc)?)?,
        seen: seen.again(),
    };
    let second = first.again()?;
    begin(rt, alloc, first, second, viewers)
}

impl Publisher {
    /// Publishes the features at front 0, for so many viewers. A viewer is missing only where no handle was given out. `OutOfMemory`: memory
    /// ran out.
    pub fn new<R: Wait>(
        rt: &R,
        alloc: Global,
        features: &Features,
        viewers: u32,
    ) -> Mem<(Publisher, Vec<Option<Viewer>>)>
        requires { 0 < viewers }
        ensures given { IfOk result (λ t. given_of t.0 ≡ pair 0 (content_of features.now) ∷ []) }
        ensures shown { IfOk result (λ t. shown_of t.0 ≡ pair 0 (content_of features.now)) }
        ensures abreast { IfOk result (λ t. IsAbreast t.0) }
        ensures count { IfOk result (λ t. length t.1.items ≡ viewers) }
        ensures viewers { IfOk result (λ t. AreNew t.0.seen.book features.now.schema t.1.items) }
    {
        let (head, seen) = open(features);
        let other = features.copy(alloc)?;
        let mut all = Vec::with_capacity(alloc, viewers as usize)?;
        let mut writer = first_copies(rt, alloc, features, &seen, viewers)?;
        push_viewers(&mut writer, &seen, &mut all, viewers);
        let publisher = Publisher {
            writer: Some(writer),
            head,
            seen,
            given: 0,
            other: Some(Other::Same(other)),
            alloc,
        };
        Ok((publisher, all))
    }

    /// The front that is published.
    pub fn shown(&self) -> u64
        ensures front { result ≡ (shown_of self.now).front }
        ensures stands { Stands (given_of self.now) (shown_of self.now) }
    {
        match &self.writer {
            Some(writer) => writer.published().front,
            None => unreachable!(),
        }
    }

    /// Whether the last call was refused.
    pub fn is_behind(&self) -> bool
        ensures { IsTrue result ↔ IsBehind self.now }
    {
        self.other.is_none()
    }

    /// Publishes the features at the next front. Where the publisher is not behind, the change is played, once it is seen that it may be, on the copy
    /// that is not published, and on the other in a later call. Where it may not be played, or there is no memory for the change before it, whole
    /// copies are published, as where the publisher is behind. `OutOfMemory`: memory ran out, so that the publisher is behind. It waits for those
    /// who were reading as the last swap was made and are still in that read; where it publishes whole copies, for those too who read as it swaps.
    pub fn publish<R: Wait>(
        &mut self,
        rt: &R,
        front: u64,
        change: Option<&Change>,
        now: &Features,
    ) -> Mem<()>
        requires next { front ≡ length (given_of self.old) }
        requires schema { now.now.schema ≡ schema_in (given_of self.old) }
        requires change { IsAbreast self.old → Follows (option_copied change)
            (shown_of self.old).content now.now }
        ensures history { self.new.seen.book ≡ self.old.seen.book }
        ensures given { given_of self.new ≡ given_of self.old
            ++ pair front (content_of now.now) ∷ [] }
        ensures ok { OnOk result (shown_of self.new ≡ pair front (content_of now.now)) }
        ensures abreast { OnOk result (IsAbreast self.new) }
        ensures err { OnErr result ((shown_of self.new ≡ shown_of self.old)
            ⊎ (shown_of self.new ≡ pair front (content_of now.now))) }
        ensures behind { OnErr result (IsBehind self.new) }
    {
        add(rt, &self.head, &mut self.seen, front, now);
        self.given = front;
        let Some(writer) = self.writer.take() else {
            unreachable!()
        };
        let other = self.other.take();
        let (writer, other) = show(
            rt, self.alloc, writer, &self.seen, other, front, change, now,
        );
        let none = mem::replace(&mut self.writer, Some(writer));
        let None = none else { unreachable!() };
        self.other = other;
        if self.other.is_some() {
            Ok(())
        } else {
            Err(OutOfMemory)
        }
    }

    /// Tells the viewer what was published: each pair that it entered, up to the front that was given last, is one that was given, and no later
    /// answer is from a pair below what is published now. It waits for nobody and takes no memory.
    pub fn meet(&self, viewer: &mut Viewer)
        requires { viewer.old.seen.book ≡ self.now.seen.book }
        ensures same { IsSame viewer.old viewer.new }
        ensures told { viewer.new.told ≡ max viewer.old.told (shown_of self.now).front }
        ensures entered { entered_of viewer.new ≡ entered_of viewer.old }
        ensures known { All (λ p. p.front < length (given_of self.now)
            → Stands (given_of self.now) p) (entered_of viewer.new) }
    {
        viewer.tell(self.shown());
        viewer.learn(&self.seen);
    }

    /// The same, of each pair that the viewer entered.
    pub fn meet_all<R: Wait>(&self, rt: &R, viewer: &mut Viewer)
        requires { viewer.old.seen.book ≡ self.now.seen.book }
        ensures same { IsSame viewer.old viewer.new }
        ensures told { viewer.new.told ≡ max viewer.old.told (shown_of self.now).front }
        ensures entered { entered_of viewer.new ≡ entered_of viewer.old }
        ensures known { All (Stands (given_of self.now)) (entered_of viewer.new) }
    {
        viewer.tell(self.shown());
        viewer.learn_all(rt, &self.head, &self.seen, self.given);
    }

    /// Ends it. It waits for those who read.
    pub fn end<R: Wait>(self, rt: &R) {
        let Publisher {
            writer,
            head: _,
            seen: _,
            given: _,
            other: _,
            alloc: _,
        } = self;
        let Some(writer) = writer else { unreachable!() };
        drop(writer.take(rt));
    }
}
