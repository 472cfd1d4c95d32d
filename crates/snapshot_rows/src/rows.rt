//! Marks that are published and counted. What is expected was worked out by hand.

ghost use Rattle.std.specs.Prelude.{◌≡◌, ◌<◌, ◌++◌, ◌∷◌, [], OnOk, length};
ghost use Rattle.wfs_model.specs.Changing.{IsChange};
ghost use Rattle.wfs_model.specs.Playable.{AreQueriesOf};
ghost use Rattle.snapshot_reads.specs.Content.{content_of};
ghost use Rattle.snapshot_reads.specs.Pairs.{pair, schema_in};
ghost use Rattle.snapshot_reads.specs.Publishers.{given_of, shown_of, IsAbreast};

use feature_versions::Features;
use marks::{count, insert, schema};
use snapshot_reads::{Publisher, Viewed, Viewer};
use std::alloc::Global;
use std::process::Abort;
use std::sync::Wait;
use std::test::Fail;
use wfs_ends::{Mem, OutOfMemory};
use wfs_model::{Change, Reply, Request};

mod marks;
mod refused;

/// What a read gave: how many marks and at which front, or the front that is behind.
#[derive(Clone, Copy, Debug, PartialEq, Eq)]
enum Found {
    Marks(u64, u64),
    Behind(u64),
    Other,
}

fn look(alloc: Global, viewer: &mut Viewer, request: &Request) -> Mem<Found>
    requires { IsChange request.now → ⊥ }
{
    Ok(match &viewer.read(alloc, 1000, request)? {
        Viewed::Answer(Reply::Collection { matched, .. }, front) => Found::Marks(*matched, *front),
        Viewed::Behind(front) => Found::Behind(*front),
        _ => Found::Other,
    })
}

// Plays a change, where it may be played, and publishes it: whether that was done, and not refused for want of memory.
fn play<R: Wait>(
    rt: &R,
    alloc: Global,
    publisher: &mut Publisher,
    features: &mut Features,
    front: u64,
    change: Change,
) -> Mem<bool>
    requires next { front ≡ length (given_of publisher.old) }
    requires schema { features.old.schema ≡ schema_in (given_of publisher.old) }
    requires queries { AreQueriesOf features.old.schema change }
    requires alike { IsAbreast publisher.old → content_of features.old
        ≡ (shown_of publisher.old).content }
    ensures given { OnOk result (given_of publisher.new ≡ given_of publisher.old
        ++ pair front (content_of features.new) ∷ []) }
    ensures schema { OnOk result (features.new.schema ≡ features.old.schema) }
    ensures alike { OnOk result (IsAbreast publisher.new → content_of features.new
        ≡ (shown_of publisher.new).content) }
{
    if !features.accepts(alloc, &change)? {
        return Err(OutOfMemory);
    }
    let same = change.copy(alloc)?;
    features.reserve(&change)?;
    features.apply(same);
    Ok(
        publisher
            .publish(rt, front, Some(&change), features)
            .is_ok(),
    )
}

// Publishes the same features at the next front: whether that was done.
fn pass<R: Wait>(rt: &R, publisher: &mut Publisher, features: &Features, front: u64) -> bool
    requires next { front ≡ length (given_of publisher.old) }
    requires some { 0 < length (given_of publisher.old) }
    requires schema { features.now.schema ≡ schema_in (given_of publisher.old) }
    requires alike { IsAbreast publisher.old → content_of features.now
        ≡ (shown_of publisher.old).content }
    ensures given { given_of publisher.new ≡ given_of publisher.old
        ++ pair front (content_of features.now) ∷ [] }
    ensures schema { features.now.schema ≡ schema_in (given_of publisher.new) }
    ensures alike { IsAbreast publisher.new → content_of features.now
        ≡ (shown_of publisher.new).content }
{
    publisher.publish(rt, front, None, features).is_ok()
}

// What a viewer finds before a mark comes, after it, at a front without a change, after another mark, and once it was told a front that is not there
// yet.
fn told<R: Wait>(
    rt: &R,
    alloc: Global,
    publisher: &mut Publisher,
    viewer: &mut Viewer,
    features: &mut Features,
    request: &Request,
) -> Mem<[Found; 5]>
    requires next { length (given_of publisher.old) ≡ 1 }
    requires schema { features.old.schema ≡ schema_in (given_of publisher.old) }
    requires alike { IsAbreast publisher.old → content_of features.old
        ≡ (shown_of publisher.old).content }
    requires read { IsChange request.now → ⊥ }
{
    let before = look(alloc, viewer, request)?;
    if !play(rt, alloc, publisher, features, 1, insert(alloc, 1)?)? {
        return Err(OutOfMemory);
    }
    let after = look(alloc, viewer, request)?;
    if !pass(rt, publisher, features, 2) {
        return Err(OutOfMemory);
    }
    let same = look(alloc, viewer, request)?;
    if !play(rt, alloc, publisher, features, 3, insert(alloc, 2)?)? {
        return Err(OutOfMemory);
    }
    let both = look(alloc, viewer, request)?;
    viewer.tell(4);
    let behind = look(alloc, viewer, request)?;
    Ok([before, after, same, both, behind])
}

// The same by the last of these viewers.
fn told_to_last<R: Wait>(
    rt: &R,
    alloc: Global,
    publisher: &mut Publisher,
    viewers: Vec<Option<Viewer>>,
    features: &mut Features,
) -> Mem<[Found; 5]>
    requires next { length (given_of publisher.old) ≡ 1 }
    requires schema { features.old.schema ≡ schema_in (given_of publisher.old) }
    requires alike { IsAbreast publisher.old → content_of features.old
        ≡ (shown_of publisher.old).content }
{
    let request = count(alloc)?;
    let mut viewers = viewers;
    match viewers.pop() {
        Some(Some(mut viewer)) => told(rt, alloc, publisher, &mut viewer, features, &request),
        _ => Err(OutOfMemory),
    }
}

fn all_told<R: Wait>(rt: &R, alloc: Global, features: &mut Features) -> Mem<[Found; 5]> {
    let (mut publisher, viewers) = Publisher::new(rt, alloc, features, 1)?;
    let all = told_to_last(rt, alloc, &mut publisher, viewers, features);
    publisher.end(rt);
    all
}

fn told_of_marks<R: Wait>(rt: &R, alloc: Global) -> Mem<[Found; 5]> {
    let schema = schema(alloc)?;
    let mut features = Features::new(alloc, &schema)?;
    all_told(rt, alloc, &mut features)
}

#[test]
fn each_mark_is_found_once_it_is_published(rt: HostRuntime) -> Result<(), Fail> {
    let all = told_of_marks(&rt, rt.alloc());
    assert_eq!(rt;
        all,
        Ok([
            Found::Marks(0, 0),
            Found::Marks(1, 1),
            Found::Marks(1, 2),
            Found::Marks(2, 3),
            Found::Behind(3)
        ])
    );
    Ok(())
}
