//! Workers over links and disks in memory. What is expected is written from the formats' own words.

ghost use Rattle.std.specs.Prelude.{◌≡◌, ◌<◌, ◌≤◌, [], IfOk, length, replicate};
ghost use Rattle.feature_schema.specs.Rules.{KeepsRules};

use disk_core::{MemDisk, Pair};
use feature_schema::read_schema;
use feature_values::Schema;
use service_doors::MemAcceptor;
use service_session::{Gate, GatePoint};
use std::alloc::Global;
use std::sync::Wait;
use std::sync::atomic::{AtomicU64, Ordering};
use std::thread;
use std::thread::Threads;
use store_server::{Ended, Served, Slot, serve};
use wfs_ends::{ListClock, Mem, MemLink, OutOfMemory};
use wfs_model::Limits;
use wfs_store::Store;

mod beside;
mod faults;
mod states;
mod turns;

const SCHEMA: &str =
    "title = \"Marks\"\naddress = \"http://localhost:8080/wfs\"\nnamespace = \"http://example.org/marks\"\nprefix = \"m\"\nsrs = [\"urn:ogc:def:crs:EPSG::25832\", \"EPSG:25832\"]\n[[type]]\nname = \"Mark\"\nproperty = [ {name=\"label\", kind=\"text\", required=true, max=40} ]\n";

// ---- messages and answers

const INSERT: &str =
    "POST /wfs HTTP/1.1\r\nHost: h\r\nContent-Length: 205\r\n\r\n<wfs:Transaction service=\"WFS\" version=\"2.0.2\" xmlns:wfs=\"http://www.opengis.net/wfs/2.0\" xmlns:m=\"http://example.org/marks\"><wfs:Insert><m:Mark><m:label>A</m:label></m:Mark></wfs:Insert></wfs:Transaction>";

const HITS: &str =
    "GET /wfs?service=WFS&request=GetFeature&typeNames=m:Mark&resultType=hits HTTP/1.1\r\nHost: h\r\n\r\n";

const TWO_HITS: &str =
    "GET /wfs?service=WFS&request=GetFeature&typeNames=m:Mark&resultType=hits HTTP/1.1\r\nHost: h\r\n\r\nGET /wfs?service=WFS&request=GetFeature&typeNames=m:Mark&resultType=hits HTTP/1.1\r\nHost: h\r\n\r\n";

const FIRST_MARK: &str =
    "HTTP/1.1 200 OK\r\nContent-Type: text/xml\r\nContent-Length: 492\r\n\r\n<?xml version=\"1.0\" encoding=\"UTF-8\"?><wfs:TransactionResponse xmlns:wfs=\"http://www.opengis.net/wfs/2.0\" xmlns:fes=\"http://www.opengis.net/fes/2.0\" version=\"2.0.2\"><wfs:TransactionSummary><wfs:totalInserted>1</wfs:totalInserted><wfs:totalUpdated>0</wfs:totalUpdated><wfs:totalReplaced>0</wfs:totalReplaced><wfs:totalDeleted>0</wfs:totalDeleted></wfs:TransactionSummary><wfs:InsertResults><wfs:Feature><fes:ResourceId rid=\"Mark.1\"/></wfs:Feature></wfs:InsertResults></wfs:TransactionResponse>";

const SECOND_MARK: &str =
    "HTTP/1.1 200 OK\r\nContent-Type: text/xml\r\nContent-Length: 492\r\n\r\n<?xml version=\"1.0\" encoding=\"UTF-8\"?><wfs:TransactionResponse xmlns:wfs=\"http://www.opengis.net/wfs/2.0\" xmlns:fes=\"http://www.opengis.net/fes/2.0\" version=\"2.0.2\"><wfs:TransactionSummary><wfs:totalInserted>1</wfs:totalInserted><wfs:totalUpdated>0</wfs:totalUpdated><wfs:totalReplaced>0</wfs:totalReplaced><wfs:totalDeleted>0</wfs:totalDeleted></wfs:TransactionSummary><wfs:InsertResults><wfs:Feature><fes:ResourceId rid=\"Mark.2\"/></wfs:Feature></wfs:InsertResults></wfs:TransactionResponse>";

const NONE_MATCHED: &str =
    "HTTP/1.1 200 OK\r\nContent-Type: application/gml+xml; version=3.2\r\nContent-Length: 253\r\n\r\n<?xml version=\"1.0\" encoding=\"UTF-8\"?><wfs:FeatureCollection xmlns:wfs=\"http://www.opengis.net/wfs/2.0\" xmlns:gml=\"http://www.opengis.net/gml/3.2\" xmlns:m=\"http://example.org/marks\" timeStamp=\"1970-01-01T00:16:40Z\" numberMatched=\"0\" numberReturned=\"0\"/>";

const ONE_MATCHED: &str =
    "HTTP/1.1 200 OK\r\nContent-Type: application/gml+xml; version=3.2\r\nContent-Length: 253\r\n\r\n<?xml version=\"1.0\" encoding=\"UTF-8\"?><wfs:FeatureCollection xmlns:wfs=\"http://www.opengis.net/wfs/2.0\" xmlns:gml=\"http://www.opengis.net/gml/3.2\" xmlns:m=\"http://example.org/marks\" timeStamp=\"1970-01-01T00:16:40Z\" numberMatched=\"1\" numberReturned=\"0\"/>";

const TWO_MATCHED: &str =
    "HTTP/1.1 200 OK\r\nContent-Type: application/gml+xml; version=3.2\r\nContent-Length: 253\r\n\r\n<?xml version=\"1.0\" encoding=\"UTF-8\"?><wfs:FeatureCollection xmlns:wfs=\"http://www.opengis.net/wfs/2.0\" xmlns:gml=\"http://www.opengis.net/gml/3.2\" xmlns:m=\"http://example.org/marks\" timeStamp=\"1970-01-01T00:16:40Z\" numberMatched=\"2\" numberReturned=\"0\"/>";

// ---- gates that wait for one another

// How many times a gate looks before it gives up.
const LOOKS: u32 = 1_000_000_000;

// How many times a worker looks that stays in its turn: for longer than a thread takes to begin, so that another one comes to want it.
const STAY: u32 = 50_000_000;

// What gates tell each other. The last says that one gave up.
#[derive(Drop)]
struct Signals {
    first: AtomicU64,
    second: AtomicU64,
    late: AtomicU64,
}

fn no_signals() -> Signals {
    Signals {
        first: AtomicU64::new(0),
        second: AtomicU64::new(0),
        late: AtomicU64::new(0),
    }
}

// Who is at a gate.
#[derive(Clone, Copy)]
enum Role {
    // Nobody is held.
    Free,
    // Tells, before its answer, that it is there, and is held until the other has its second answer.
    Changes,
    // Is held before its first answer until the other is at its gate, and tells when it has its second answer.
    Reads,
    // Tells, in its turn of this number, counted from 0, that it is there, and is held in it until the other has its second answer.
    Holds(u64),
    // Stays in each turn for a while.
    Stays,
}

// The gate of a worker, with how many answers and turns it has had.
#[derive(Drop)]
struct Post<'a> {
    signals: &'a Signals,
    role: Role,
    answers: u64,
    turns: u64,
}

// Waits until a signal is given. It gives up behind a limit of looks, and says so.
fn wait_for(signal: &AtomicU64, late: &AtomicU64) {
    for _ in 0..LOOKS {
        if signal.load(Ordering::SeqCst) == 1 {
            return;
        }
        thread::yield_now();
    }
    late.store(1, Ordering::SeqCst);
}

// Looks for a signal for a while.
fn stay(signal: &AtomicU64) {
    for _ in 0..STAY {
        if signal.load(Ordering::SeqCst) == 1 {
            return;
        }
    }
}

// What a worker does before an answer, which is its first, or a later one.
fn meet(signals: &Signals, role: Role, is_first: bool) {
    match role {
        Role::Changes => {
            signals.first.store(1, Ordering::SeqCst);
            wait_for(&signals.second, &signals.late);
        }
        Role::Reads if is_first => wait_for(&signals.first, &signals.late),
        Role::Reads => signals.second.store(1, Ordering::SeqCst),
        Role::Free | Role::Holds(_) | Role::Stays => {}
    }
}

// What a worker does in a turn.
fn hold(signals: &Signals, role: Role, turn: u64) {
    match role {
        Role::Holds(number) if number == turn => {
            signals.first.store(1, Ordering::SeqCst);
            wait_for(&signals.second, &signals.late);
        }
        Role::Stays => stay(&signals.second),
        _ => {}
    }
}

impl<'a> Gate for Post<'a> {
    fn reach(&mut self, point: GatePoint) {
        match point {
            GatePoint::InTurn => {
                hold(self.signals, self.role, self.turns);
                self.turns = self.turns.saturating_add(1);
            }
            GatePoint::BeforeAnswer => {
                meet(self.signals, self.role, self.answers == 0);
                self.answers = self.answers.saturating_add(1);
            }
        }
    }
}

// ---- stores and slots

fn marks(alloc: Global) -> Mem<Schema>
    ensures { IfOk result KeepsRules }
{
    match read_schema(alloc, SCHEMA.as_bytes()) {
        Ok(schema) => Ok(schema),
        Err(_) => Err(OutOfMemory),
    }
}

// An empty file, of whose disk the listed calls fail.
fn disk(alloc: Global, failing: &[u64]) -> Mem<MemDisk> {
    let failing = Vec::from_slice(alloc, failing)?;
    MemDisk::new(alloc, Vec::new(alloc), 200, 2_000, failing, None)
}

// Two empty files. The listed calls of the first one's disk fail.
fn no_files(alloc: Global, failing: &[u64]) -> Mem<Pair<MemDisk>> {
    let a = disk(alloc, failing)?;
    let b = disk(alloc, &[])?;
    Ok(Pair { a, b })
}

// The store on two files.
fn start(alloc: Global, disks: Pair<MemDisk>, schema: &Schema) -> Mem<Store<MemDisk>>
    requires { KeepsRules schema.now }
    ensures { IfOk result (λ store. (store.schema ≡ schema.now) × (store.entries ≡ [])
        × (store.tally ≡ replicate 17 0)) }
{
    match Store::start(alloc, disks, schema, Limits::stated()) {
        Ok(store) => Ok(store),
        Err(_) => Err(OutOfMemory),
    }
}

// What a worker is given, and what comes back of it.
type Given<'a> = Slot<MemAcceptor, ListClock, Post<'a>>;

type Left<'a> = Ended<MemAcceptor, ListClock, Post<'a>>;

// A link from which this comes, and to which so many bytes may be written.
fn link(alloc: Global, input: &str, room: u64) -> Mem<MemLink> {
    let input = Vec::from_slice(alloc, input.as_bytes())?;
    MemLink::new(alloc, input, room, Vec::new(alloc), Vec::new(alloc))
}

// An acceptor of one such link. Its listed calls fail.
fn acceptor_with(alloc: Global, input: &str, room: u64, failing: &[u64]) -> Mem<MemAcceptor> {
    let failing = Vec::from_slice(alloc, failing)?;
    let links = vec![in alloc; link(alloc, input, room)?]?;
    Ok(MemAcceptor::new(links, failing))
}

// One of a link to which 2,000 bytes may be written.
fn acceptor(alloc: Global, input: &str, failing: &[u64]) -> Mem<MemAcceptor> {
    acceptor_with(alloc, input, 2_000, failing)
}

// A clock at the moment 1000.
fn clock(alloc: Global) -> Mem<ListClock> {
    Ok(ListClock::new(vec![in alloc; 1000u64]?))
}

// A worker at the moment 1000 with one link, from which this comes. The listed calls of its acceptor fail.
fn slot<'a>(
    alloc: Global,
    signals: &'a Signals,
    role: Role,
    input: &str,
    failing: &[u64],
) -> Mem<Given<'a>> {
    let clock = clock(alloc)?;
    let acceptor = acceptor(alloc, input, failing)?;
    let gate = Post {
        signals,
        role,
        answers: 0,
        turns: 0,
    };
    Ok(Slot {
        acceptor,
        clock,
        gate,
    })
}

// One worker, whom nobody holds. The listed calls of its acceptor fail.
fn one_slot<'a>(
    alloc: Global,
    signals: &'a Signals,
    input: &str,
    failing: &[u64],
) -> Mem<Vec<Given<'a>>>
    ensures { IfOk result (λ slots. length slots.items ≡ 1) }
{
    let one = slot(alloc, signals, Role::Free, input, failing)?;
    Ok(vec![in alloc; one]?)
}

// Two workers, each with its role and what comes from its link.
fn two_slots<'a>(
    alloc: Global,
    signals: &'a Signals,
    first: (Role, &str),
    second: (Role, &str),
) -> Mem<Vec<Given<'a>>>
    ensures { IfOk result (λ slots. length slots.items ≡ 2) }
{
    let one = slot(alloc, signals, first.0, first.1, &[])?;
    let other = slot(alloc, signals, second.0, second.1, &[])?;
    Ok(vec![in alloc; one, other]?)
}

// What a run left: how many entries its history has, its files, and its workers.
#[derive(Drop)]
struct Run<'a> {
    entries: u64,
    disks: Pair<MemDisk>,
    workers: Vec<Left<'a>>,
}

// What a service left. None: there was no memory for it.
fn left_by<'a>(served: Served<MemAcceptor, ListClock, Post<'a>, MemDisk>) -> Option<Run<'a>> {
    match served {
        Served::Ran { store, workers } => Some(Run {
            entries: store.entries(),
            disks: store.close(),
            workers,
        }),
        Served::NoMemory { store: _, slots: _ } => None,
    }
}

// Serves the links of these workers, so many of each at most, over a store on two files.
fn serve_on<'a, R: Threads + Wait + Sync>(
    rt: &R,
    alloc: Global,
    schema: &Schema,
    disks: Pair<MemDisk>,
    slots: Vec<Given<'a>>,
    limit: Option<u32>,
) -> Mem<Option<Run<'a>>>
    requires rules { KeepsRules schema.now }
    requires slots { (0 < length slots.items) × (length slots.items ≤ 16) }
{
    let store = start(alloc, disks, schema)?;
    Ok(left_by(serve(rt, alloc, store, schema, slots, limit)))
}

// What was written on the one link of an acceptor.
fn written_on(acceptor: &MemAcceptor) -> &[u8] {
    match acceptor.links() {
        [link] => link.written(),
        _ => &[],
    }
}

// What was written on the one link of a worker.
fn written<'a>(worker: &'a Left<'_>) -> &'a [u8] {
    written_on(&worker.slot.acceptor)
}

// Whether bytes are these answers, one after the other.
fn are_answers(bytes: &[u8], answers: &[&str]) -> bool {
    let mut rest = bytes;
    for answer in answers {
        match rest.strip_prefix(answer.as_bytes()) {
            Some(behind) => rest = behind,
            None => return false,
        }
    }
    rest.is_empty()
}

// ---- two insertions side by side

// Whether one of two workers has inserted the first mark, and the other the second.
fn have_inserted(workers: &[Left<'_>]) -> bool {
    let [one, other] = workers else {
        return false;
    };
    let (one, other) = (written(one), written(other));
    (one == FIRST_MARK.as_bytes() && other == SECOND_MARK.as_bytes())
        || (one == SECOND_MARK.as_bytes() && other == FIRST_MARK.as_bytes())
}

// The files of a run whose two workers have inserted a mark each.
fn files_if(run: Run<'_>) -> Option<Pair<MemDisk>> {
    if run.entries == 2 && have_inserted(&run.workers) {
        return Some(run.disks);
    }
    None
}

// The files on which two workers have inserted a mark each. Nobody gives the signal for which each of them looks in its turn, so the one that
// comes first stays in it until the other one wants it.
fn insert_both<R: Threads + Wait + Sync>(
    rt: &R,
    alloc: Global,
    schema: &Schema,
    signals: &Signals,
) -> Mem<Option<Pair<MemDisk>>>
    requires { KeepsRules schema.now }
{
    let slots = two_slots(alloc, signals, (Role::Stays, INSERT), (Role::Stays, INSERT))?;
    let disks = no_files(alloc, &[])?;
    Ok(match serve_on(rt, alloc, schema, disks, slots, None)? {
        Some(run) => files_if(run),
        None => None,
    })
}

// Whether the one worker of a run has found two marks.
fn has_found_two(run: Option<Run<'_>>) -> bool {
    match run {
        Some(run) => match run.workers.as_slice() {
            [worker] => written(worker) == TWO_MATCHED.as_bytes(),
            _ => false,
        },
        None => false,
    }
}

// Whether the next run finds two marks on these files.
fn are_found_again<R: Threads + Wait + Sync>(
    rt: &R,
    alloc: Global,
    schema: &Schema,
    signals: &Signals,
    disks: Pair<MemDisk>,
) -> Mem<bool>
    requires { KeepsRules schema.now }
{
    let slots = one_slot(alloc, signals, HITS, &[])?;
    Ok(has_found_two(serve_on(rt, alloc, schema, disks, slots, None)?))
}

// Whether two workers insert a mark each, and the next run finds both.
fn both_insert<R: Threads + Wait + Sync>(rt: &R, alloc: Global, schema: &Schema) -> Mem<bool>
    requires { KeepsRules schema.now }
{
    let signals = no_signals();
    match insert_both(rt, alloc, schema, &signals)? {
        Some(disks) => are_found_again(rt, alloc, schema, &signals, disks),
        None => Ok(false),
    }
}

// ---- two workers that wait for each other

// Whether a worker that is held before its answer has changed what the other one reads meanwhile.
fn have_met(run: Option<Run<'_>>) -> bool {
    match run {
        Some(run) => match run.workers.as_slice() {
            [one, other] => {
                written(one) == FIRST_MARK.as_bytes()
                    && written(other).ends_with(ONE_MATCHED.as_bytes())
            }
            _ => false,
        },
        None => false,
    }
}

// Whether two workers met, and no gate gave up.
fn both_meet<R: Threads + Wait + Sync>(rt: &R, alloc: Global, schema: &Schema) -> Mem<bool>
    requires { KeepsRules schema.now }
{
    let signals = no_signals();
    let slots = two_slots(
        alloc,
        &signals,
        (Role::Changes, INSERT),
        (Role::Reads, TWO_HITS),
    )?;
    let disks = no_files(alloc, &[])?;
    let met = have_met(serve_on(rt, alloc, schema, disks, slots, None)?);
    Ok(met && signals.late.load(Ordering::SeqCst) == 0)
}

// ---- tests

// Whether two workers insert a mark each, and whether two meet.
fn rows_hold<R: Threads + Wait + Sync>(rt: &R, alloc: Global) -> Mem<(bool, bool)> {
    let schema = marks(alloc)?;
    let insert = both_insert(rt, alloc, &schema)?;
    let meet = both_meet(rt, alloc, &schema)?;
    Ok((insert, meet))
}

#[test]
fn two_workers_insert_side_by_side_and_meet(rt: HostRuntime) {
    assert_eq!(rt; rows_hold(&rt, rt.alloc()), Ok((true, true)));
}
