//! What bodies come to that were written by hand, and what a journal comes to that holds the first of them.

ghost use Rattle.std.specs.Prelude.{◌≡◌, [], length};

use checkpoints::RecordSource;
use disk_core::{Disk, MemDisk, Pair};
use feature_schema::read_schema;
use feature_values::Schema;
use feature_versions::Features;
use journal_replay::{CheckpointSource, Rebuild};
use recovery::{Replay, ReplayFault, recover};
use std::alloc::Global;
use std::test::Fail;
use wfs_ends::{Mem, OutOfMemory};

mod bodies;

use bodies::{CHECKPOINTS, OPENED_TWICE, ROWS};

const MARKS: &str = r#"
title = "Marks"
address = "http://localhost:8080/wfs"
namespace = "http://example.org/marks"
prefix = "m"
srs = ["urn:ogc:def:crs:EPSG::25832", "EPSG:25832"]
[[type]]
name = "Mark"
property = [ {name="label", kind="text", required=true, max=40},
  {name="size", kind="integer"}, {name="place", kind="point"} ]
[[type]]
name = "Field"
property = [ {name="name", kind="text"}, {name="area", kind="polygon"} ]
[[type]]
name = "Way"
property = [ {name="course", kind="line"} ]
"#;

fn schema(alloc: Global) -> Mem<Schema> {
    match read_schema(alloc, MARKS.as_bytes()) {
        Ok(schema) => Ok(schema),
        Err(_) => Err(OutOfMemory),
    }
}

fn replay(alloc: Global) -> Mem<Rebuild> {
    Rebuild::new(alloc, &schema(alloc)?)
}

fn first_refused(replay: &mut Rebuild, bodies: &[&[u8]]) -> Option<(usize, ReplayFault)> {
    replay.restart();
    for (i, body) in bodies.iter().enumerate() {
        if let Err(fault) = replay.take_record(i as u64, body) {
            return Some((i, fault));
        }
    }
    None
}

fn first_of(replay: &mut Rebuild) -> Option<usize> {
    for (i, (bodies, answer)) in ROWS.iter().enumerate() {
        if first_refused(replay, bodies) != *answer {
            return Some(i);
        }
    }
    None
}

fn first_wrong(alloc: Global) -> Mem<Option<usize>> {
    let mut replay = replay(alloc)?;
    Ok(first_of(&mut replay))
}

// The first row that is answered otherwise is none.
#[test]
fn bodies_are_judged(rt: HostRuntime) -> Result<(), Fail> {
    assert_eq!(rt; first_wrong(rt.alloc())?, None);
    Ok(())
}

// How many of these bodies are kept.
fn kept_count(alloc: Global, bodies: &[&[u8]]) -> Mem<usize> {
    let mut replay = replay(alloc)?;
    let _refused = first_refused(&mut replay, bodies);
    let (_features, kept) = replay.into_parts();
    Ok(kept.count())
}

#[test]
fn refused_body_is_not_kept(rt: HostRuntime) -> Result<(), Fail> {
    assert_eq!(rt; kept_count(rt.alloc(), OPENED_TWICE)?, 1);
    Ok(())
}

// Generation 1 with the first opening: 124 bytes.
const OPENED: &[u8] =
    b"\x01WFSJNL\x01\0\0\0\0\0\0\0\x01\x01\0\0\0f\x01\0\0\0\0\0\0\0\x01\0\0\0YMark(label:text,size:integer,place:point);Field(name:text,area:polygon);Way(course:line);\0";

// Behind it, Mark.1 with the label A: 155 bytes.
const INSERTED: &[u8] =
    b"\x01WFSJNL\x01\0\0\0\0\0\0\0\x01\x01\0\0\0f\x01\0\0\0\0\0\0\0\x01\0\0\0YMark(label:text,size:integer,place:point);Field(name:text,area:polygon);Way(course:line);\x01\0\0\0\x1a\x02\0\0\0\x01\x01\0\0\0\0\0\0\0\0\0\x01\0\x03\x01\0\0\0\x01A\0\0\0";

fn disk_of(alloc: Global, text: &[u8]) -> Mem<MemDisk> {
    let mut bytes = Vec::new(alloc);
    bytes.extend_from_slice(text)?;
    MemDisk::new(alloc, bytes, 20, 100, Vec::new(alloc), None)
}

// The length of the side, its bodies, and of what they come to the features, the marks that were numbered and the openings.
type Counts = (u64, usize, u64, u64, u64);

fn length_on<D: Disk + Drop>(alloc: Global, disks: Pair<D>, replay: &mut Rebuild) -> Option<u64> {
    match recover(alloc, disks, 1000, replay) {
        Ok(journal) => Some(journal.side_length()),
        Err(_) => None,
    }
}

fn counts_of(length: u64, replay: Rebuild) -> Counts {
    let (features, bodies) = replay.into_parts();
    (
        length,
        bodies.count(),
        features.count(),
        features.counter(0),
        features.openings(),
    )
}

fn counts_on<D: Disk + Drop>(alloc: Global, disks: Pair<D>) -> Mem<Option<Counts>> {
    let mut replay = replay(alloc)?;
    match length_on(alloc, disks, &mut replay) {
        Some(length) => Ok(Some(counts_of(length, replay))),
        None => Ok(None),
    }
}

fn disks_of(alloc: Global, side: &[u8]) -> Mem<Pair<MemDisk>> {
    Ok(Pair {
        a: disk_of(alloc, side)?,
        b: disk_of(alloc, b"")?,
    })
}

fn recovered(alloc: Global, side: &[u8]) -> Mem<Option<Counts>> {
    counts_on(alloc, disks_of(alloc, side)?)
}

// The lengths are those that a first start and a first insert leave.
#[test]
fn journals_come_to_a_state(rt: HostRuntime) -> Result<(), Fail> {
    assert_eq!(rt; recovered(rt.alloc(), OPENED)?, Some((124, 1, 0, 0, 1)));
    assert_eq!(rt; recovered(rt.alloc(), INSERTED)?, Some((155, 2, 1, 1, 1)));
    Ok(())
}

fn first_other(alloc: Global, features: &Features, bodies: &[&[u8]]) -> Mem<Option<usize>> {
    let mut source = CheckpointSource::new(alloc, features)?;
    let mut found = Vec::new(alloc);
    for (i, body) in bodies.iter().enumerate() {
        if !source.next_body(&mut found)? || found.as_slice() != *body {
            return Ok(Some(i));
        }
    }
    if source.next_body(&mut found)? {
        return Ok(Some(bodies.len()));
    }
    Ok(None)
}

// The first body that is another; none is left behind them.
fn first_changed(alloc: Global, bodies: &[&[u8]], want: &[&[u8]]) -> Mem<Option<usize>> {
    let mut replay = replay(alloc)?;
    let refused = first_refused(&mut replay, bodies);
    if refused.is_some() {
        return Ok(Some(0));
    }
    first_other(alloc, replay.features(), want)
}

// The first row that fails, and its first body that is another.
fn first_checkpoint(alloc: Global) -> Mem<Option<(usize, usize)>> {
    for (i, (bodies, want)) in CHECKPOINTS.iter().enumerate() {
        if let Some(at) = first_changed(alloc, bodies, want)? {
            return Ok(Some((i, at)));
        }
    }
    Ok(None)
}

#[test]
fn checkpoints_are_made(rt: HostRuntime) -> Result<(), Fail> {
    assert_eq!(rt; first_checkpoint(rt.alloc())?, None);
    Ok(())
}
