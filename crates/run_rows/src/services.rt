//! Links that are served by workers.

ghost use Rattle.std.specs.Prelude.{IfOk};
ghost use Rattle.service_doors.specs.Memory.{IsNewRow};

use disk_core::{MemDisk, Pair};
use program_samples::{
    Answer, COLLECTION, FEATURES, Message, SCHEMA, answers_of, empty, hold, hold_with, left_by,
    make_ready, messages_of, run, text_of,
};
use service_doors::{MemAcceptor, MemDoors};
use std::alloc::Global;
use std::sync::Wait;
use std::thread::Threads;
use wfs_ends::{ListClock, Mem, MemLink, MemSink};
use wfsd_program::Run;

const ONE_MARK: Message = ("", "<m:Mark><m:label>A</m:label></m:Mark>");

const HITS: Message = (
    "GET /wfs?service=WFS&request=GetFeature&typeNames=m:Mark&resultType=hits HTTP/1.1\r\nHost: h\r\n\r\n",
    "",
);

// ---- doors

// The links of an acceptor, by the messages that come from each.
type Links = &'static [&'static [Message]];

// A link from which these messages come.
fn link(alloc: Global, messages: &[Message]) -> Mem<MemLink> {
    let input = messages_of(alloc, messages)?;
    MemLink::new(
        alloc,
        Vec::from_slice(alloc, input.as_bytes())?,
        2_000,
        Vec::new(alloc),
        Vec::new(alloc),
    )
}

fn links_of(alloc: Global, links: Links) -> Mem<Vec<MemLink>> {
    let mut all = Vec::new(alloc);
    for messages in links {
        all.push(link(alloc, messages)?)?;
    }
    Ok(all)
}

// An acceptor of these links, of whose calls the listed ones fail.
fn acceptor(alloc: Global, links: Links, failing: &[u64]) -> Mem<MemAcceptor>
    ensures { IfOk result IsNewRow }
{
    let links = links_of(alloc, links)?;
    Ok(MemAcceptor::new(links, Vec::from_slice(alloc, failing)?))
}

// Doors with two such acceptors, of whose calls the listed ones fail.
fn doors_with(alloc: Global, links: Links, failing: &[u64], accepts: &[u64]) -> Mem<MemDoors> {
    let first = acceptor(alloc, links, accepts)?;
    let second = acceptor(alloc, links, accepts)?;
    let failing = Vec::from_slice(alloc, failing)?;
    Ok(MemDoors::new(alloc, vec![in alloc; first, second]?, failing))
}

// ---- services

// A service: its words, the links of each acceptor, which calls of the doors fail, which ones of each acceptor, how many bytes the
// output takes, the status and the output, and the line of the next run's check.
type Service = (
    &'static [&'static str],
    Links,
    &'static [u64],
    &'static [u64],
    u64,
    u8,
    &'static str,
    &'static str,
);

const TWO_WORKERS: &[&str] = &["serve", "--workers=2", "d", "--listen", "127.0.0.1:0"];

const TWO_LINKS_EACH: &[&str] = &[
    "serve",
    "--listen=127.0.0.1:0",
    "--connections=2",
    "--workers=2",
    "d",
];

const NOTHING: &str = "types 3 features 0 queries 0 openings 1\n";

static SERVICES: [Service; 6] = [
    (
        TWO_WORKERS,
        &[&[ONE_MARK]],
        &[],
        &[],
        100,
        0,
        "serving\n",
        "types 3 features 2 queries 0 openings 1\n",
    ),
    (
        TWO_LINKS_EACH,
        &[&[ONE_MARK], &[ONE_MARK], &[ONE_MARK]],
        &[],
        &[],
        100,
        0,
        "serving\n",
        "types 3 features 4 queries 0 openings 1\n",
    ),
    (
        TWO_WORKERS,
        &[&[ONE_MARK]],
        &[0],
        &[],
        100,
        9,
        "wfsd: cannot listen\n",
        NOTHING,
    ),
    (
        TWO_WORKERS,
        &[&[ONE_MARK]],
        &[],
        &[0],
        100,
        9,
        "serving\nwfsd: cannot listen\n",
        NOTHING,
    ),
    (
        TWO_WORKERS,
        &[&[ONE_MARK], &[ONE_MARK]],
        &[],
        &[1],
        100,
        9,
        "serving\nwfsd: cannot listen\n",
        "types 3 features 2 queries 0 openings 1\n",
    ),
    (TWO_WORKERS, &[&[ONE_MARK]], &[], &[], 3, 7, "ser", NOTHING),
];

// A service that has ended, with its output.
type Ran = (Run<MemDisk, MemAcceptor, ListClock>, MemSink);

// Does a service in an empty folder.
fn serve<R: Threads + Wait + Sync>(rt: &R, alloc: Global, service: &Service) -> Mem<Ran> {
    let mut doors = doors_with(alloc, service.1, service.2, service.3)?;
    let ready = make_ready(alloc, service.0, SCHEMA, "", &[], service.4)?;
    let disks = empty(alloc)?;
    Ok(hold_with(rt, alloc, ready, disks, &mut doors))
}

// The disks of a service that came to what its row says.
fn disks_if(ran: Ran, service: &Service) -> Option<Pair<MemDisk>> {
    let (run, out) = ran;
    let left = left_by(run);
    if left.status == service.5 && out.bytes() == service.6.as_bytes() {
        return left.disks;
    }
    None
}

// Whether a check of these disks tells this line.
fn tells<R: Threads + Wait + Sync>(
    rt: &R,
    alloc: Global,
    disks: Option<Pair<MemDisk>>,
    line: &str,
) -> Mem<bool> {
    let ready = make_ready(alloc, &["check", "d"], SCHEMA, "", &[], 100)?;
    Ok(match disks {
        Some(disks) => {
            let (_, out) = hold(rt, alloc, ready, disks);
            text_of(&out) == line
        }
        None => false,
    })
}

// Whether a service comes to what its row says, and the next run's check too.
fn is_so<R: Threads + Wait + Sync>(rt: &R, alloc: Global, service: &Service) -> Mem<bool> {
    let ran = serve(rt, alloc, service)?;
    tells(rt, alloc, disks_if(ran, service), service.7)
}

// The first row of `SERVICES` of which something else comes.
fn first_wrong<R: Threads + Wait + Sync>(rt: &R, alloc: Global) -> Mem<Option<usize>> {
    for i in 0..SERVICES.len() {
        if !is_so(rt, alloc, &SERVICES[i])? {
            return Ok(Some(i));
        }
    }
    Ok(None)
}

#[test]
fn services_come_to_their_ends(rt: HostRuntime) {
    assert_eq!(rt; first_wrong(&rt, rt.alloc()), Ok(None));
}

// ---- sessions one after the other

static ONE_WORKER: Service = (
    &["serve", "--workers", "1", "--listen", "127.0.0.1:0", "d"],
    &[&[ONE_MARK], &[HITS]],
    &[],
    &[],
    100,
    0,
    "serving\n",
    "types 3 features 1 queries 0 openings 1\n",
);

static ONE_INSERTED: [Answer; 1] = [(
    "200 OK",
    "text/xml",
    "",
    &[
        "<?xml version=\"1.0\" encoding=\"UTF-8\"?><wfs:TransactionResponse xmlns:wfs=\"http://www.opengis.net/wfs/2.0\" xmlns:fes=\"http://www.opengis.net/fes/2.0\" version=\"2.0.2\"><wfs:TransactionSummary><wfs:totalInserted>1</wfs:totalInserted><wfs:totalUpdated>0</wfs:totalUpdated><wfs:totalReplaced>0</wfs:totalReplaced><wfs:totalDeleted>0</wfs:totalDeleted></wfs:TransactionSummary><wfs:InsertResults><wfs:Feature><fes:ResourceId rid=\"Mark.1\"/></wfs:Feature></wfs:InsertResults></wfs:TransactionResponse>",
    ],
)];

static ONE_HIT: [Answer; 1] = [(
    "200 OK",
    FEATURES,
    "",
    &[COLLECTION, "1\" numberReturned=\"0\"/>"],
)];

// Whether the one worker of a run wrote this onto its first link, and that onto its second.
fn wrote(run: &Run<MemDisk, MemAcceptor, ListClock>, first: &[u8], second: &[u8]) -> bool {
    let [worker] = run.workers.as_slice() else {
        return false;
    };
    match worker.slot.acceptor.links() {
        [one, other] => one.written() == first && other.written() == second,
        _ => false,
    }
}

// Whether a session that inserts a mark is followed by one that finds it.
fn follow<R: Threads + Wait + Sync>(rt: &R, alloc: Global) -> Mem<bool> {
    let first = answers_of(alloc, &ONE_INSERTED)?;
    let second = answers_of(alloc, &ONE_HIT)?;
    let (run, _) = serve(rt, alloc, &ONE_WORKER)?;
    Ok(wrote(&run, first.as_bytes(), second.as_bytes()))
}

#[test]
fn a_session_finds_what_the_one_before_it_inserted(rt: HostRuntime) {
    assert_eq!(rt; follow(&rt, rt.alloc()), Ok(true));
}
