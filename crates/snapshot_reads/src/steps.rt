//! What the publisher does with the two copies.

ghost use Rattle.std.specs.Prelude.{◌≡◌, ◌⊎◌, ◌≤◌, ◌<◌, [], true, IfOk, IfSome, IsSome, IsTrue, MatchBool, drop, length};
ghost use Rattle.std.specs.Option.{ForSome, option_copied};
ghost use Rattle.left_right.specs.Sides.{view};
ghost use Rattle.wfs_model.specs.Playable.{is_playable, AreQueriesOf};
ghost use Rattle.wfs_model.specs.Played.{played_one};
ghost use Rattle.snapshot_reads.specs.Content.{content_of, with_change};
ghost use Rattle.snapshot_reads.specs.Pairs.{pair, schema_in, Stands};
ghost use Rattle.snapshot_reads.specs.Publishers.{Follows};
ghost use Rattle.snapshot_reads.specs.Rules.{pair_of};
ghost use Rattle.snapshot_reads.specs.Viewers.{IsNew};
ghost use Rattle.snapshot_reads.specs.Whole.{KnowsOf, MayFollow, Ready, Sound, content_of_other, next_of};

use crate::book::{Law, Pair};
use crate::other::{Late, Other};
use crate::playing::changed;
use crate::rule::{Knows, Notes, Published, Swaps};
use crate::shown::Shown;
use crate::snapshot::Snapshot;
use crate::viewer::Viewer;
use feature_versions::Features;
use left_right::writer::Writer;
use logbook::Seen;
use std::alloc::Global;
use std::sync::Wait;
use wfs_ends::Mem;
use wfs_model::Change;

pub(crate) type Copies = Writer<Shown, Shown, Knows, Published>;

// ---- swaps

// Publishes what waits, as often as it takes until that is absorbed.
fn swap<R: Wait>(rt: &R, writer: Copies) -> Copies
    requires { MayFollow writer.desk.shown.value
        (next_of writer.desk.shown.value (drop writer.behind writer.log.items)) }
    ensures shown { result.desk.shown.value ≡ next_of writer.desk.shown.value
        (drop writer.behind writer.log.items) }
    ensures none { drop result.behind result.log.items ≡ [] }
    ensures told { KnowsOf (view result.desk.place) writer.desk.shown.value.seen.book }
{
    let mut writer = writer;
    for _ in rt.forever() {
        let (next, published) = writer.publish_as::<Swaps, R>(rt);
        if let Ok(()) = published {
            return next;
        }
        writer = next;
    }
    unreachable!()
}

// Publishes this, or nothing where there is no memory.
fn put<R: Wait>(
    rt: &R,
    mut writer: Copies,
    seen: &Seen<Pair, (), Law>,
    next: Shown,
) -> (Copies, bool)
    requires sound { Sound seen.now.log seen.now.book writer.desk.shown.value
        (drop writer.behind writer.log.items) (view writer.desk.place) }
    requires ready { Ready seen.now.log seen.now.book next }
    requires up { writer.desk.shown.value.front ≤ next.front }
    ensures sound { Sound seen.now.log seen.now.book result.0.desk.shown.value
        (drop result.0.behind result.0.log.items) (view result.0.desk.place) }
    ensures shown { MatchBool result.1 (result.0.desk.shown.value ≡ next)
        (result.0.desk.shown.value ≡ writer.desk.shown.value) }
{
    match writer.append(next) {
        Ok(()) => (swap(rt, writer), true),
        Err(_) => (writer, false),
    }
}

// ---- the older copy

// The spare side takes what is published, unless the count of those that share it is full.
fn renew(spare: &mut Shown, shown: &Shown)
    ensures { (spare.new ≡ shown.now) ⊎ (spare.new ≡ spare.old) }
{
    if let Ok(shown) = shown.again() {
        *spare = shown;
    }
}

// Waits for those who still read what was published before, and lets go of it.
fn let_go<R: Wait>(rt: &R, mut writer: Copies, seen: &Seen<Pair, (), Law>) -> Copies
    requires { Sound seen.now.log seen.now.book writer.desk.shown.value
        (drop writer.behind writer.log.items) (view writer.desk.place) }
    ensures sound { Sound seen.now.log seen.now.book result.desk.shown.value
        (drop result.behind result.log.items) (view result.desk.place) }
    ensures shown { result.desk.shown.value ≡ writer.desk.shown.value }
{
    let (open, mut spare) = writer.desk.open(rt);
    renew(&mut spare, open.shown.get());
    writer.desk = open.shelve(spare);
    writer
}

// The second copy with the change that it may lack. There is none where somebody still shares it, or where memory ran out.
fn catch_up<R: Wait>(
    rt: &R,
    writer: Copies,
    seen: &Seen<Pair, (), Law>,
    other: Other,
) -> (Copies, Option<Features>)
    requires sound { Sound seen.now.log seen.now.book writer.desk.shown.value
        (drop writer.behind writer.log.items) (view writer.desk.place) }
    requires alike { content_of_other other ≡ writer.desk.shown.value.snapshot }
    ensures sound { Sound seen.now.log seen.now.book result.0.desk.shown.value
        (drop result.0.behind result.0.log.items) (view result.0.desk.place) }
    ensures shown { result.0.desk.shown.value ≡ writer.desk.shown.value }
    ensures alike { ForSome result.1 (λ f. content_of f ≡ writer.desk.shown.value.snapshot) }
{
    match other {
        Other::Same(features) => (writer, Some(features)),
        Other::Late(late) => {
            // it is kept well
            let _schema = writer.published().snapshot.features().schema();
            (let_go(rt, writer, seen), late.caught_up())
        }
    }
}

// ---- the next pair

// The same features at the next front.
fn show_same<R: Wait>(
    rt: &R,
    writer: Copies,
    seen: &Seen<Pair, (), Law>,
    other: Other,
    front: u64,
) -> (Copies, Option<Other>)
    requires sound { Sound seen.now.log seen.now.book writer.desk.shown.value
        (drop writer.behind writer.log.items) (view writer.desk.place) }
    requires given { Stands seen.now.log (pair front writer.desk.shown.value.snapshot) }
    requires up { writer.desk.shown.value.front ≤ front }
    ensures sound { Sound seen.now.log seen.now.book result.0.desk.shown.value
        (drop result.0.behind result.0.log.items) (view result.0.desk.place) }
    ensures shown { IfSome result.1 (λ o. (o ≡ other)
        × (pair_of result.0.desk.shown.value ≡ pair front writer.desk.shown.value.snapshot)) }
    ensures either { (pair_of result.0.desk.shown.value ≡ pair_of writer.desk.shown.value)
        ⊎ (pair_of result.0.desk.shown.value ≡ pair front writer.desk.shown.value.snapshot) }
{
    let Ok(snapshot) = writer.published().snapshot.again() else {
        return (writer, None);
    };
    let seen_now = seen.again();
    let next = Shown {
        front,
        snapshot,
        seen: seen_now,
    };
    let (writer, done) = put(rt, writer, seen, next);
    if done {
        (writer, Some(other))
    } else {
        (writer, None)
    }
}

// A changed copy of the features, to be shared.
fn changed_snapshot(alloc: Global, features: Features, change: &Change) -> Mem<Snapshot>
    requires playable { is_playable features.schema features.kept change.now ≡ true }
    requires queries { AreQueriesOf features.schema change.now }
    ensures { IfOk result (λ s. s ≡ with_change (content_of features) change.now) }
{
    Snapshot::of(alloc, changed(features, change.copy(alloc)?)?)
}

// A change on the other copy, which is published. What was published before lacks it from then on.
fn show_change<R: Wait>(
    rt: &R,
    alloc: Global,
    writer: Copies,
    seen: &Seen<Pair, (), Law>,
    other: Features,
    front: u64,
    change: &Change,
    now: &Features,
) -> (Copies, Option<Other>)
    requires sound { Sound seen.now.log seen.now.book writer.desk.shown.value
        (drop writer.behind writer.log.items) (view writer.desk.place) }
    requires given { Stands seen.now.log (pair front (content_of now.now)) }
    requires schema { now.now.schema ≡ schema_in seen.now.log }
    requires up { writer.desk.shown.value.front ≤ front }
    requires alike { content_of other ≡ writer.desk.shown.value.snapshot }
    requires playable { is_playable other.schema other.kept change.now ≡ true }
    requires queries { AreQueriesOf other.schema change.now }
    requires change { now.now.kept ≡ played_one other.kept change.now }
    ensures sound { Sound seen.now.log seen.now.book result.0.desk.shown.value
        (drop result.0.behind result.0.log.items) (view result.0.desk.place) }
    ensures shown { IfSome result.1 (λ o. (content_of_other o ≡ content_of now.now)
        × (pair_of result.0.desk.shown.value ≡ pair front (content_of now.now))) }
    ensures either { (pair_of result.0.desk.shown.value ≡ pair_of writer.desk.shown.value)
        ⊎ (pair_of result.0.desk.shown.value ≡ pair front (content_of now.now)) }
{
    let Ok(late) = Late::of(alloc, &writer.published().snapshot, change) else {
        return (writer, None);
    };
    let Ok(snapshot) = changed_snapshot(alloc, other, change) else {
        return (writer, None);
    };
    let next = Shown {
        front,
        snapshot,
        seen: seen.again(),
    };
    let (writer, done) = put(rt, writer, seen, next);
    if done {
        (writer, Some(Other::Late(late)))
    } else {
        (writer, None)
    }
}

// A whole copy of the features, to be shared.
fn whole_snapshot(alloc: Global, now: &Features) -> Mem<Snapshot>
    ensures { IfOk result (λ s. s ≡ content_of now.now) }
{
    Snapshot::of(alloc, now.copy(alloc)?)
}

// Two whole copies, the second once the first is published and what was published before is gone: it waits for those who read that.
fn show_whole<R: Wait>(
    rt: &R,
    alloc: Global,
    writer: Copies,
    seen: &Seen<Pair, (), Law>,
    front: u64,
    now: &Features,
) -> (Copies, Option<Other>)
    requires sound { Sound seen.now.log seen.now.book writer.desk.shown.value
        (drop writer.behind writer.log.items) (view writer.desk.place) }
    requires given { Stands seen.now.log (pair front (content_of now.now)) }
    requires schema { now.now.schema ≡ schema_in seen.now.log }
    requires up { writer.desk.shown.value.front ≤ front }
    ensures sound { Sound seen.now.log seen.now.book result.0.desk.shown.value
        (drop result.0.behind result.0.log.items) (view result.0.desk.place) }
    ensures shown { IfSome result.1 (λ o. (content_of_other o ≡ content_of now.now)
        × (pair_of result.0.desk.shown.value ≡ pair front (content_of now.now))) }
    ensures either { (pair_of result.0.desk.shown.value ≡ pair_of writer.desk.shown.value)
        ⊎ (pair_of result.0.desk.shown.value ≡ pair front (content_of now.now)) }
{
    let Ok(snapshot) = whole_snapshot(alloc, now) else {
        return (writer, None);
    };
    let next = Shown {
        front,
        snapshot,
        seen: seen.again(),
    };
    let (writer, done) = put(rt, writer, seen, next);
    if !done {
        return (writer, None);
    }
    let writer = let_go(rt, writer, seen);
    match now.copy(alloc) {
        Ok(second) => (writer, Some(Other::Same(second))),
        Err(_) => (writer, None),
    }
}

// Whether it is known of a change that it may be played.
fn may_play(alloc: Global, features: &Features, change: &Change) -> bool
    ensures { IsTrue result → is_playable features.now.schema features.now.kept change.now ≡ true }
{
    matches!(features.accepts(alloc, change), Ok(true))
}

/// Publishes a pair: by its change where there is another copy of what is published on which it may be played, else by whole copies. The other copy,
/// which may lack the change, comes back where all went well.
pub(crate) fn show<R: Wait>(
    rt: &R,
    alloc: Global,
    writer: Copies,
    seen: &Seen<Pair, (), Law>,
    other: Option<Other>,
    front: u64,
    change: Option<&Change>,
    now: &Features,
) -> (Copies, Option<Other>)
    requires sound { Sound seen.now.log seen.now.book writer.desk.shown.value
        (drop writer.behind writer.log.items) (view writer.desk.place) }
    requires given { Stands seen.now.log (pair front (content_of now.now)) }
    requires schema { now.now.schema ≡ schema_in seen.now.log }
    requires up { writer.desk.shown.value.front ≤ front }
    requires alike { ForSome other (λ o. content_of_other o ≡ writer.desk.shown.value.snapshot) }
    requires change { IsSome other → Follows (option_copied change) writer.desk.shown.value.snapshot
        now.now }
    ensures sound { Sound seen.now.log seen.now.book result.0.desk.shown.value
        (drop result.0.behind result.0.log.items) (view result.0.desk.place) }
    ensures shown { IfSome result.1 (λ o. (content_of_other o ≡ content_of now.now)
        × (pair_of result.0.desk.shown.value ≡ pair front (content_of now.now))) }
    ensures either { (pair_of result.0.desk.shown.value ≡ pair_of writer.desk.shown.value)
        ⊎ (pair_of result.0.desk.shown.value ≡ pair front (content_of now.now)) }
{
    let Some(other) = other else {
        return show_whole(rt, alloc, writer, seen, front, now);
    };
    // it is kept well
    let _schema = now.schema();
    let Some(change) = change else {
        return show_same(rt, writer, seen, other, front);
    };
    let (writer, caught) = catch_up(rt, writer, seen, other);
    let Some(features) = caught else {
        return show_whole(rt, alloc, writer, seen, front, now);
    };
    if may_play(alloc, &features, change) {
        show_change(rt, alloc, writer, seen, features, front, change, now)
    } else {
        show_whole(rt, alloc, writer, seen, front, now)
    }
}

// ---- the beginning

/// Makes the two copies, whose publisher knows its history.
pub(crate) fn begin<R: Wait>(
    rt: &R,
    alloc: Global,
    first: Shown,
    second: Shown,
    viewers: u32,
) -> Mem<Copies>
    requires some { 0 < viewers }
    requires alike { first ≡ second }
    requires stands { Stands first.seen.log (pair_of first) }
    ensures shown { IfOk result (λ w. w.desk.shown.value ≡ first) }
    ensures none { IfOk result (λ w. drop w.behind w.log.items ≡ []) }
    ensures told { IfOk result (λ w. KnowsOf (view w.desk.place) first.seen.book) }
{
    let writer = Writer::new(alloc, first, second, viewers as usize)?;
    Ok(swap(rt, writer))
}

/// Makes a viewer, where there is a place for it.
pub(crate) fn make_viewer(writer: &mut Copies, seen: &Seen<Pair, (), Law>) -> Option<Viewer>
    requires some { 0 < length seen.now.log }
    requires told { KnowsOf (view writer.old.desk.place) seen.now.book }
    ensures shown { writer.new.desk.shown.value ≡ writer.old.desk.shown.value }
    ensures waiting { drop writer.new.behind writer.new.log.items
        ≡ drop writer.old.behind writer.old.log.items }
    ensures view { view writer.new.desk.place ≡ view writer.old.desk.place }
    ensures viewer { IfSome result (IsNew seen.now.book (schema_in seen.now.log)) }
{
    let mut reader = writer.factory().reader().ok()?;
    reader.learn::<Notes>(writer.tell::<Notes>());
    Some(Viewer::of(reader, seen.again()))
}
