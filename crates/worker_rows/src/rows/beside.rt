//! A read beside a worker that holds its turn: it waits for nobody, and finds what was answered before.

ghost use Rattle.feature_schema.specs.Rules.{KeepsRules};

use super::{
    NONE_MATCHED, ONE_MATCHED, Role, Run, Signals, TWO_HITS, marks, no_files, no_signals, serve_on,
    two_slots, written,
};
use feature_values::Schema;
use std::alloc::Global;
use std::sync::Wait;
use std::sync::atomic::Ordering;
use std::test::Fail;
use std::thread::Threads;
use wfs_ends::Mem;

const TWO_INSERTS: &str =
    "POST /wfs HTTP/1.1\r\nHost: h\r\nContent-Length: 205\r\n\r\n<wfs:Transaction service=\"WFS\" version=\"2.0.2\" xmlns:wfs=\"http://www.opengis.net/wfs/2.0\" xmlns:m=\"http://example.org/marks\"><wfs:Insert><m:Mark><m:label>A</m:label></m:Mark></wfs:Insert></wfs:Transaction>POST /wfs HTTP/1.1\r\nHost: h\r\nContent-Length: 205\r\n\r\n<wfs:Transaction service=\"WFS\" version=\"2.0.2\" xmlns:wfs=\"http://www.opengis.net/wfs/2.0\" xmlns:m=\"http://example.org/marks\"><wfs:Insert><m:Mark><m:label>A</m:label></m:Mark></wfs:Insert></wfs:Transaction>";

// Whether the last answer of the worker that reads was this.
fn has_read(run: Option<Run<'_>>, answer: &str) -> bool {
    match run {
        Some(run) => match run.workers.as_slice() {
            [_, other] => written(other).ends_with(answer.as_bytes()),
            _ => false,
        },
        None => false,
    }
}

// Whether a worker is answered so while another one, which inserts twice, holds its turn of this number.
fn is_read_so<R: Threads + Wait + Sync>(
    rt: &R,
    alloc: Global,
    schema: &Schema,
    signals: &Signals,
    turn: u64,
    answer: &str,
) -> Mem<bool>
    requires { KeepsRules schema.now }
{
    let holds = (Role::Holds(turn), TWO_INSERTS);
    let slots = two_slots(alloc, signals, holds, (Role::Reads, TWO_HITS))?;
    let disks = no_files(alloc, &[])?;
    Ok(has_read(serve_on(rt, alloc, schema, disks, slots, None)?, answer))
}

// The same, where no gate gave up.
fn is_read_beside<R: Threads + Wait + Sync>(
    rt: &R,
    alloc: Global,
    turn: u64,
    answer: &str,
) -> Mem<bool> {
    let schema = marks(alloc)?;
    let signals = no_signals();
    let reads = is_read_so(rt, alloc, &schema, &signals, turn, answer)?;
    Ok(reads && signals.late.load(Ordering::SeqCst) == 0)
}

#[test]
fn a_read_does_not_wait_for_the_turn(rt: HostRuntime) -> Result<(), Fail> {
    assert_eq!(rt; is_read_beside(&rt, rt.alloc(), 0, NONE_MATCHED), Ok(true));
    Ok(())
}

#[test]
fn an_answered_insertion_is_found_without_a_turn(rt: HostRuntime) -> Result<(), Fail> {
    assert_eq!(rt; is_read_beside(&rt, rt.alloc(), 1, ONE_MATCHED), Ok(true));
    Ok(())
}
