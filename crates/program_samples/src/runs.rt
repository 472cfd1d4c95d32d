//! Runs over files, ends and doors in memory.

use crate::messages::SCHEMA;
use disk_core::{MemDisk, Pair};
use service_doors::{MemAcceptor, MemDoors};
use std::alloc::Global;
use std::sync::Wait;
use std::thread::Threads;
use wfs_ends::{ListClock, Mem, MemSink, MemSource};
use wfsd_program::{Run, wfsd};

// The words of a command line.
fn words_of(alloc: Global, words: &[&str]) -> Mem<Vec<String>> {
    let mut all = Vec::new(alloc);
    for word in words {
        all.push(String::from_str(alloc, word)?)?;
    }
    Ok(all)
}

// A text as a source whose listed takes fail.
fn source(alloc: Global, text: &str, failing: &[u64]) -> Mem<MemSource> {
    let failing = Vec::from_slice(alloc, failing)?;
    Ok(MemSource::new(Vec::from_slice(alloc, text.as_bytes())?, failing))
}

/// A file with these bytes, of which the listed calls fail, and all from a stop on.
pub fn disk_with(alloc: Global, bytes: &[u8], failing: &[u64], stop: Option<u64>) -> Mem<MemDisk> {
    let failing = Vec::from_slice(alloc, failing)?;
    MemDisk::new(
        alloc,
        Vec::from_slice(alloc, bytes)?,
        1_000,
        20_000,
        failing,
        stop,
    )
}

/// The two files of an empty folder.
pub fn empty(alloc: Global) -> Mem<Pair<MemDisk>> {
    Ok(Pair {
        a: disk_with(alloc, b"", &[], None)?,
        b: disk_with(alloc, b"", &[], None)?,
    })
}

/// What a run leaves: its status, how many entries its history has, and the disks.
#[derive(Drop)]
pub struct Left {
    pub status: u8,
    pub entries: Option<u64>,
    pub disks: Option<Pair<MemDisk>>,
}

/// What a run leaves, without its workers.
pub fn left_by(run: Run<MemDisk, MemAcceptor, ListClock>) -> Left {
    let Run {
        status,
        store,
        disks,
        workers,
        idle,
    } = run;
    drop(workers);
    drop(idle);
    match store {
        Some(store) => Left {
            status,
            entries: Some(store.entries()),
            disks: Some(store.close()),
        },
        None => Left {
            status,
            entries: None,
            disks,
        },
    }
}

/// All that a run has but its disks.
#[derive(Drop)]
pub struct Ready {
    words: Vec<String>,
    schema: MemSource,
    input: MemSource,
    out: MemSink,
    clock: ListClock,
}

/// A run of which each message has its moment, whose input fails at the listed takes, and whose output has this room.
pub fn make_ready_at(
    alloc: Global,
    clock: ListClock,
    words: &[&str],
    schema: &str,
    input: &str,
    failing: &[u64],
    room: u64,
) -> Mem<Ready> {
    Ok(Ready {
        words: words_of(alloc, words)?,
        schema: source(alloc, schema, &[])?,
        input: source(alloc, input, failing)?,
        out: MemSink::new(alloc, room, Vec::new(alloc))?,
        clock,
    })
}

/// One whose clock says 1,000.
pub fn make_ready(
    alloc: Global,
    words: &[&str],
    schema: &str,
    input: &str,
    failing: &[u64],
    room: u64,
) -> Mem<Ready> {
    let clock = ListClock::new(vec![in alloc; 1000u64]?);
    make_ready_at(alloc, clock, words, schema, input, failing, room)
}

/// One without input, of which the listed takes of the schema fail.
pub fn make_ready_failing(
    alloc: Global,
    words: &[&str],
    schema: &str,
    failing: &[u64],
    room: u64,
) -> Mem<Ready> {
    Ok(Ready {
        words: words_of(alloc, words)?,
        schema: source(alloc, schema, failing)?,
        input: source(alloc, "", &[])?,
        out: MemSink::new(alloc, room, Vec::new(alloc))?,
        clock: ListClock::new(vec![in alloc; 1000u64]?),
    })
}

/// Does a run on these disks, with these doors: what it leaves, and its output.
pub fn hold_with<R: Threads + Wait + Sync>(
    rt: &R,
    alloc: Global,
    ready: Ready,
    disks: Pair<MemDisk>,
    doors: &mut MemDoors,
) -> (Run<MemDisk, MemAcceptor, ListClock>, MemSink) {
    let Ready {
        words,
        mut schema,
        mut input,
        mut out,
        mut clock,
    } = ready;
    let run = wfsd(
        rt,
        alloc,
        &words,
        &mut schema,
        &mut input,
        &mut out,
        disks,
        doors,
        &mut clock,
    );
    (run, out)
}

/// Does a run on these disks that has no worker: what it leaves, and its output.
pub fn hold<R: Threads + Wait + Sync>(
    rt: &R,
    alloc: Global,
    ready: Ready,
    disks: Pair<MemDisk>,
) -> (Left, MemSink) {
    let mut doors = MemDoors::new(alloc, Vec::new(alloc), Vec::new(alloc));
    let (run, out) = hold_with(rt, alloc, ready, disks, &mut doors);
    (left_by(run), out)
}

/// What a run came to: its status, and the number of entries of its history.
pub type End = (u8, Option<u64>);

/// The end of what is left.
pub fn end_of(left: &Left) -> End {
    (left.status, left.entries)
}

/// Does a run in an empty folder: its end, and its output.
pub fn go_empty<R: Threads + Wait + Sync>(
    rt: &R,
    alloc: Global,
    ready: Ready,
) -> Mem<(End, MemSink)> {
    let disks = empty(alloc)?;
    let (left, out) = hold(rt, alloc, ready, disks);
    Ok((end_of(&left), out))
}

/// Does a run over a schema and an input whose listed takes fail, in an empty folder, with an output of so many bytes.
pub fn run<R: Threads + Wait + Sync>(
    rt: &R,
    alloc: Global,
    words: &[&str],
    schema: &str,
    input: &str,
    failing: &[u64],
    room: u64,
) -> Mem<(End, MemSink)> {
    go_empty(
        rt,
        alloc,
        make_ready(alloc, words, schema, input, failing, room)?,
    )
}

/// What a session over an input puts out.
pub fn talk<R: Threads + Wait + Sync>(rt: &R, alloc: Global, input: &str) -> Mem<MemSink> {
    let (_, out) = run(rt, alloc, &["talk", "d"], SCHEMA, input, &[], 20_000)?;
    Ok(out)
}

/// What was put out, as text.
pub fn text_of(out: &MemSink) -> &str {
    str::from_utf8(out.bytes()).unwrap_or("")
}
