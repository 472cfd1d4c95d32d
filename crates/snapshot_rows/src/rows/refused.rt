//! Publishes of which one may be refused, for want of memory: what was published before is still found, and the next publish has all.

ghost use Rattle.std.specs.Prelude.{◌≡◌, length};
ghost use Rattle.wfs_model.specs.Changing.{IsChange};
ghost use Rattle.snapshot_reads.specs.Content.{content_of};
ghost use Rattle.snapshot_reads.specs.Pairs.{schema_in};
ghost use Rattle.snapshot_reads.specs.Publishers.{given_of, shown_of, IsAbreast};

use super::marks::{count, insert, schema};
use super::{Found, look, play};
use feature_versions::Features;
use snapshot_reads::{Publisher, Viewer};
use std::alloc::Global;
use std::process::Abort;
use std::sync::Wait;
use std::test::Fail;
use wfs_ends::{Mem, OutOfMemory};
use wfs_model::Request;

// Whether a viewer finds as many marks as the front that is published, which is this one where the publish was done, and else this one or the one
// before; and whether the publisher is behind exactly where it was refused.
fn is_found(
    alloc: Global,
    publisher: &Publisher,
    viewer: &mut Viewer,
    request: &Request,
    front: u64,
    was_done: bool,
) -> Mem<bool>
    requires { IsChange request.now → ⊥ }
{
    let shown = publisher.shown();
    let found = look(alloc, viewer, request)?;
    let is_shown = shown == front || !was_done && shown.saturating_add(1) == front;
    Ok(found == Found::Marks(shown, shown) && is_shown && publisher.is_behind() != was_done)
}

// Whether it is so behind each of two publishes, of which one may be refused.
fn are_found<R: Wait>(
    rt: &R,
    alloc: Global,
    publisher: &mut Publisher,
    viewer: &mut Viewer,
    features: &mut Features,
    request: &Request,
) -> Mem<bool>
    requires next { length (given_of publisher.old) ≡ 1 }
    requires schema { features.old.schema ≡ schema_in (given_of publisher.old) }
    requires alike { IsAbreast publisher.old → content_of features.old
        ≡ (shown_of publisher.old).content }
    requires read { IsChange request.now → ⊥ }
{
    let first = play(rt, alloc, publisher, features, 1, insert(alloc, 1)?)?;
    let one = is_found(alloc, publisher, viewer, request, 1, first)?;
    let second = play(rt, alloc, publisher, features, 2, insert(alloc, 2)?)?;
    let two = is_found(alloc, publisher, viewer, request, 2, second)?;
    Ok(one && two && (first || second))
}

// The same by the last of these viewers.
fn are_found_by_last<R: Wait>(
    rt: &R,
    alloc: Global,
    publisher: &mut Publisher,
    viewers: Vec<Option<Viewer>>,
    features: &mut Features,
    request: &Request,
) -> Mem<bool>
    requires next { length (given_of publisher.old) ≡ 1 }
    requires schema { features.old.schema ≡ schema_in (given_of publisher.old) }
    requires alike { IsAbreast publisher.old → content_of features.old
        ≡ (shown_of publisher.old).content }
    requires read { IsChange request.now → ⊥ }
{
    let mut viewers = viewers;
    match viewers.pop() {
        Some(Some(mut viewer)) => are_found(rt, alloc, publisher, &mut viewer, features, request),
        _ => Err(OutOfMemory),
    }
}

fn are_found_in<R: Wait>(
    rt: &R,
    alloc: Global,
    features: &mut Features,
    request: &Request,
) -> Mem<bool>
    requires { IsChange request.now → ⊥ }
{
    let (mut publisher, viewers) = Publisher::new(rt, alloc, features, 1)?;
    let all = are_found_by_last(rt, alloc, &mut publisher, viewers, features, request);
    publisher.end(rt);
    all
}

fn all_are_found<R: Wait>(rt: &R, alloc: Global) -> Mem<bool> {
    let request = count(alloc)?;
    let schema = schema(alloc)?;
    let mut features = Features::new(alloc, &schema)?;
    are_found_in(rt, alloc, &mut features, &request)
}

// With ample memory each publish is done. `bench/refusals` refuses each allocation in turn: where it is none of a publish, nothing is told.
#[test]
fn a_refused_publish_is_made_up_for_by_the_next(rt: HostRuntime) -> Result<(), Fail> {
    let all = all_are_found(&rt, rt.alloc());
    assert!(rt; all != Ok(false));
    Ok(())
}
