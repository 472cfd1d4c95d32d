//! Reads beside a worker that inserts without pause: how many features match and how many are given is counted in one state for each answer, and none is
//! older than the one before.

ghost use Rattle.std.specs.Prelude.{◌≡◌, IfOk, length};
ghost use Rattle.feature_schema.specs.Rules.{KeepsRules};

use super::{
    Given, INSERT, Post, Role, Run, Signals, acceptor_with, clock, marks, no_signals, serve_on,
    written,
};
use disk_core::{MemDisk, Pair};
use feature_values::Schema;
use std::alloc::Global;
use std::sync::Wait;
use std::test::Fail;
use std::thread::Threads;
use store_server::Slot;
use wfs_ends::Mem;

const READ: &str =
    "GET /wfs?service=WFS&request=GetFeature&typeNames=m:Mark HTTP/1.1\r\nHost: h\r\n\r\n";

// How often one worker inserts, and the other reads.
const INSERTIONS: u64 = 80;

const READS: u64 = 120;

// How many bytes may be written to a link.
const ROOM: u64 = 4_000_000;

// A message so many times.
fn repeated(alloc: Global, message: &str, times: u64) -> Mem<String> {
    let mut all = String::new(alloc);
    for _ in 0..times {
        all.push_str(message)?;
    }
    Ok(all)
}

// A worker that nobody holds, with one link from which a message comes so many times.
fn busy_slot<'a>(alloc: Global, signals: &'a Signals, message: &str, times: u64) -> Mem<Given<'a>> {
    let input = repeated(alloc, message, times)?;
    let clock = clock(alloc)?;
    let acceptor = acceptor_with(alloc, input.as_str(), ROOM, &[])?;
    let gate = Post {
        signals,
        role: Role::Free,
        answers: 0,
        turns: 0,
    };
    Ok(Slot {
        acceptor,
        clock,
        gate,
    })
}

// One worker that inserts, and one that reads.
fn busy_slots<'a>(alloc: Global, signals: &'a Signals) -> Mem<Vec<Given<'a>>>
    ensures { IfOk result (λ slots. length slots.items ≡ 2) }
{
    let one = busy_slot(alloc, signals, INSERT, INSERTIONS)?;
    let other = busy_slot(alloc, signals, READ, READS)?;
    Ok(vec![in alloc; one, other]?)
}

fn large_disk(alloc: Global) -> Mem<MemDisk> {
    MemDisk::new(
        alloc,
        Vec::new(alloc),
        1_000,
        100_000,
        Vec::new(alloc),
        None,
    )
}

// Whether there is an answer to each read, whose two counts are the same and not below those of the answer before.
fn are_of_one_state_each(text: &str) -> bool {
    let mut rest = text;
    let mut before = "0";
    for _ in 0..READS {
        let Some((_, behind)) = rest.split_once(" numberMatched=\"") else {
            return false;
        };
        let Some((matched, behind)) = behind.split_once("\" numberReturned=\"") else {
            return false;
        };
        let Some((returned, behind)) = behind.split_once('"') else {
            return false;
        };
        if matched != returned || (matched.len(), matched) < (before.len(), before) {
            return false;
        }
        before = matched;
        rest = behind;
    }
    true
}

// Whether all was inserted, and each answer of the worker that reads is of one state.
fn has_read(run: Option<Run<'_>>) -> bool {
    match run {
        Some(run) => match run.workers.as_slice() {
            [_, other] => {
                let text = str::from_utf8(written(other)).unwrap_or("");
                run.entries == INSERTIONS && are_of_one_state_each(text)
            }
            _ => false,
        },
        None => false,
    }
}

fn reads_beside<R: Threads + Wait + Sync>(rt: &R, alloc: Global, schema: &Schema) -> Mem<bool>
    requires { KeepsRules schema.now }
{
    let signals = no_signals();
    let slots = busy_slots(alloc, &signals)?;
    let disks = Pair {
        a: large_disk(alloc)?,
        b: large_disk(alloc)?,
    };
    Ok(has_read(serve_on(rt, alloc, schema, disks, slots, None)?))
}

fn all_are_of_one_state<R: Threads + Wait + Sync>(rt: &R, alloc: Global) -> Mem<bool> {
    let schema = marks(alloc)?;
    reads_beside(rt, alloc, &schema)
}

#[test]
fn both_counts_are_of_one_state(rt: HostRuntime) -> Result<(), Fail> {
    assert_eq!(rt; all_are_of_one_state(&rt, rt.alloc()), Ok(true));
    Ok(())
}
