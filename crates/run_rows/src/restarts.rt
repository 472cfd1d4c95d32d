//! A store that is started, closed and started again: what was there is there, under one opening more for each start.

use disk_core::{MemDisk, Pair};
use program_samples::{Ready, SCHEMA, TWO_MARKS, empty, hold, make_ready, messages_of, text_of};
use std::alloc::Global;
use std::sync::Wait;
use std::test::Fail;
use std::thread::Threads;
use wfs_ends::{Mem, MemSource};
use wfsd_commands::{load_schema, start_again, start_store};

// The disks of a store that is started on these, closed and started again. None where something is refused.
fn started_twice(
    alloc: Global,
    schema: &mut MemSource,
    disks: Pair<MemDisk>,
) -> Option<Pair<MemDisk>> {
    let Ok(schema) = load_schema(alloc, schema) else {
        return None;
    };
    let Ok(store) = start_store(alloc, disks, &schema) else {
        return None;
    };
    match start_again(alloc, store, &schema) {
        Ok(store) => Some(store.close()),
        Err(_) => None,
    }
}

// The schema of most runs, as a source.
fn source(alloc: Global) -> Mem<MemSource> {
    let bytes = Vec::from_slice(alloc, SCHEMA.as_bytes())?;
    Ok(MemSource::new(bytes, Vec::new(alloc)))
}

// A run of these words over this input.
fn ready_for(alloc: Global, word: &str, input: &str) -> Mem<Ready> {
    make_ready(alloc, &[word, "d"], SCHEMA, input, &[], 20_000)
}

// The disks behind a session, and behind two starts of a store on what it leaves.
fn started_behind<R: Threads + Wait + Sync>(
    rt: &R,
    alloc: Global,
    talk: Ready,
    schema: &mut MemSource,
    disks: Pair<MemDisk>,
) -> Option<Pair<MemDisk>> {
    let (left, _) = hold(rt, alloc, talk, disks);
    match left.disks {
        Some(disks) => started_twice(alloc, schema, disks),
        None => None,
    }
}

// Whether a run on these disks puts out just a line.
fn tells<R: Threads + Wait + Sync>(
    rt: &R,
    alloc: Global,
    ready: Ready,
    disks: Option<Pair<MemDisk>>,
    line: &str,
) -> bool {
    match disks {
        Some(disks) => {
            let (_, out) = hold(rt, alloc, ready, disks);
            text_of(&out) == line
        }
        None => false,
    }
}

// Whether a check tells this line, behind a session that inserts two marks and two starts of a store.
fn is_told<R: Threads + Wait + Sync>(rt: &R, alloc: Global, line: &str) -> Mem<bool> {
    let input = messages_of(alloc, &[("", TWO_MARKS)])?;
    let talk = ready_for(alloc, "talk", input.as_str())?;
    let check = ready_for(alloc, "check", "")?;
    let mut schema = source(alloc)?;
    let disks = empty(alloc)?;
    let disks = started_behind(rt, alloc, talk, &mut schema, disks);
    Ok(tells(rt, alloc, check, disks, line))
}

#[test]
fn a_store_is_started_again(rt: HostRuntime) -> Result<(), Fail> {
    assert_eq!(rt;
        is_told(&rt, rt.alloc(), "types 3 features 2 queries 0 openings 3\n"),
        Ok(true)
    );
    Ok(())
}
