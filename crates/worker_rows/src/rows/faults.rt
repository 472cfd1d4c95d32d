//! A worker whose store or acceptor fails: what is answered, what goes on, and how the worker ends, at a seat and with a store of its own.

ghost use Rattle.feature_schema.specs.Rules.{KeepsRules};

use super::{
    FIRST_MARK, NONE_MATCHED, ONE_MATCHED, Run, SECOND_MARK, acceptor, are_answers, clock, marks,
    no_files, no_signals, one_slot, serve_on, start, written, written_on,
};
use disk_core::MemDisk;
use feature_values::Schema;
use service_doors::MemAcceptor;
use service_session::NoGate;
use session_workers::{WorkerEnd, work};
use std::alloc::Global;
use std::sync::Wait;
use std::test::Fail;
use std::thread::Threads;
use wfs_ends::Mem;
use wfs_store::Store;

// An insertion, a count, and the same insertion again.
const INPUT: &str =
    "POST /wfs HTTP/1.1\r\nHost: h\r\nContent-Length: 205\r\n\r\n<wfs:Transaction service=\"WFS\" version=\"2.0.2\" xmlns:wfs=\"http://www.opengis.net/wfs/2.0\" xmlns:m=\"http://example.org/marks\"><wfs:Insert><m:Mark><m:label>A</m:label></m:Mark></wfs:Insert></wfs:Transaction>GET /wfs?service=WFS&request=GetFeature&typeNames=m:Mark&resultType=hits HTTP/1.1\r\nHost: h\r\n\r\nPOST /wfs HTTP/1.1\r\nHost: h\r\nContent-Length: 205\r\n\r\n<wfs:Transaction service=\"WFS\" version=\"2.0.2\" xmlns:wfs=\"http://www.opengis.net/wfs/2.0\" xmlns:m=\"http://example.org/marks\"><wfs:Insert><m:Mark><m:label>A</m:label></m:Mark></wfs:Insert></wfs:Transaction>";

// The exception `store`: it is the server that failed, and not the request, so its status is 500.
const STORE_FAULT: &str =
    "HTTP/1.1 500 Internal Server Error\r\nContent-Type: text/xml\r\nContent-Length: 270\r\n\r\n<?xml version=\"1.0\" encoding=\"UTF-8\"?><ows:ExceptionReport xmlns:ows=\"http://www.opengis.net/ows/1.1\" version=\"2.0.2\"><ows:Exception exceptionCode=\"NoApplicableCode\" locator=\"store\"><ows:ExceptionText>store fault</ows:ExceptionText></ows:Exception></ows:ExceptionReport>";

/// Which calls of the first file's disk fail, which calls of accept, how many links the worker has at most, how it ends, how many entries the
/// history then has, and what was answered.
type Row = (
    &'static [u64],
    &'static [u64],
    Option<u32>,
    WorkerEnd,
    u64,
    &'static [&'static str],
);

const BOTH_INSERTED: &[&str] = &[FIRST_MARK, ONE_MATCHED, SECOND_MARK];

// Nothing was done, so nothing is there. The connection stays open, since it is known where the next message begins. The insertion that comes
// again is the first that is done, so it has the first number.
const SECOND_INSERTED: &[&str] = &[STORE_FAULT, NONE_MATCHED, FIRST_MARK];

// The start makes the calls 0 to 13 of the disk. An insertion writes its record by call 14 and syncs, opens the gate before it by call 16 and
// syncs. The first call of accept hands out the one link, and the second finds none left; it is not made where the limit is reached.
static ROWS: [Row; 6] = [
    (&[], &[], None, WorkerEnd::NoMore, 2, BOTH_INSERTED),
    (&[], &[], Some(1), WorkerEnd::LimitReached, 2, BOTH_INSERTED),
    (&[], &[1], None, WorkerEnd::AcceptFault, 2, BOTH_INSERTED),
    (&[], &[0], None, WorkerEnd::AcceptFault, 0, &[]),
    // the first sync of the first insertion, and the second one
    (&[15], &[], None, WorkerEnd::NoMore, 1, SECOND_INSERTED),
    (&[17], &[], None, WorkerEnd::NoMore, 1, SECOND_INSERTED),
];

// ---- at a seat

// Whether the one worker of a run came to what a row says.
fn came_so(run: Option<Run<'_>>, row: &Row) -> bool {
    let (_, _, _, end, entries, answers) = *row;
    match run {
        Some(run) => match run.workers.as_slice() {
            [worker] => {
                worker.end == end && run.entries == entries && are_answers(written(worker), answers)
            }
            _ => false,
        },
        None => false,
    }
}

fn is_served_so<R: Threads + Wait + Sync>(
    rt: &R,
    alloc: Global,
    schema: &Schema,
    row: &Row,
) -> Mem<bool>
    requires { KeepsRules schema.now }
{
    let (calls, accepts, limit, _, _, _) = *row;
    let signals = no_signals();
    let slots = one_slot(alloc, &signals, INPUT, accepts)?;
    let disks = no_files(alloc, calls)?;
    Ok(came_so(serve_on(rt, alloc, schema, disks, slots, limit)?, row))
}

fn first_served_otherwise<R: Threads + Wait + Sync>(
    rt: &R,
    alloc: Global,
    schema: &Schema,
) -> Mem<Option<usize>>
    requires { KeepsRules schema.now }
{
    for (number, row) in ROWS.iter().enumerate() {
        if !is_served_so(rt, alloc, schema, row)? {
            return Ok(Some(number));
        }
    }
    Ok(None)
}

// The first row that comes to something else.
fn first_wrong<R: Threads + Wait + Sync>(rt: &R, alloc: Global) -> Mem<Option<usize>> {
    let schema = marks(alloc)?;
    first_served_otherwise(rt, alloc, &schema)
}

#[test]
fn a_store_fault_is_answered_and_the_worker_goes_on(rt: HostRuntime) -> Result<(), Fail> {
    assert_eq!(rt; first_wrong(&rt, rt.alloc()), Ok(None));
    Ok(())
}

// ---- alone

// Has a worker serve this store at the moment 1000.
fn work_alone(
    alloc: Global,
    store: &mut Store<MemDisk>,
    acceptor: &mut MemAcceptor,
    limit: Option<u32>,
) -> Mem<WorkerEnd> {
    let mut clock = clock(alloc)?;
    Ok(work(alloc, store, acceptor, limit, &mut clock, &mut NoGate))
}

fn ends_so(alloc: Global, store: &mut Store<MemDisk>, row: &Row) -> Mem<bool> {
    let (_, accepts, limit, end, entries, answers) = *row;
    let mut acceptor = acceptor(alloc, INPUT, accepts)?;
    let found = work_alone(alloc, store, &mut acceptor, limit)?;
    Ok(found == end && store.entries() == entries && are_answers(written_on(&acceptor), answers))
}

fn ends_so_alone(alloc: Global, schema: &Schema, row: &Row) -> Mem<bool>
    requires { KeepsRules schema.now }
{
    let disks = no_files(alloc, row.0)?;
    let mut store = start(alloc, disks, schema)?;
    ends_so(alloc, &mut store, row)
}

fn first_ended_otherwise(alloc: Global, schema: &Schema) -> Mem<Option<usize>>
    requires { KeepsRules schema.now }
{
    for (number, row) in ROWS.iter().enumerate() {
        if !ends_so_alone(alloc, schema, row)? {
            return Ok(Some(number));
        }
    }
    Ok(None)
}

// The first row that comes to something else.
fn first_wrong_alone(alloc: Global) -> Mem<Option<usize>> {
    let schema = marks(alloc)?;
    first_ended_otherwise(alloc, &schema)
}

#[test]
fn so_it_is_with_a_store_of_its_own(rt: HostRuntime) -> Result<(), Fail> {
    assert_eq!(rt; first_wrong_alone(rt.alloc()), Ok(None));
    Ok(())
}
