//! Workers of a service that answers by the moment alone. What is expected is written from the formats' own words.

use crate::{Worker, WorkerEnd, run_workers, work};
use feature_values::Schema;
use http_session::Message;
use service_doors::MemAcceptor;
use service_session::{Answered, Gate, NoGate, Service};
use std::alloc::Global;
use std::test::Fail;
use std::thread::Threads;
use wfs_ends::{List, ListClock, Mem, MemLink, Text};
use wfs_model::Reply;

// Answers that it is created at the moment 0, and that it is full at any other.
#[derive(Drop)]
struct Clerk {
    schema: Schema,
}

impl Service for Clerk {
    ghost use Rattle.std.proofs.Common.{◌≡◌, refl, ◌∙◌};
    ghost use Rattle.service_session.specs.declared.answered.Answered.TheVariants as answered;

    ghost schema = { λ c. c.schema };

    ghost judges = { λ c m last moment a d. moment ≡ 1 → a ≡ answered.Full };

    ghost leads = { λ c d. d.schema ≡ c.schema };

    ghost stays = { λ c. refl };

    ghost follows = { λ c d e h k. k ∙ h };

    fn schema(&self) -> &Schema {
        &self.schema
    }

    fn judge<G: Gate>(
        &mut self,
        _alloc: Global,
        _message: &Message,
        _is_last: bool,
        moment: u64,
        _gate: &mut G,
    ) -> Answered {
        if moment == 0 {
            Answered::Reply(Reply::Created)
        } else {
            Answered::Full
        }
    }
}

// A clerk with a schema of no feature types.
fn new_clerk(alloc: Global) -> Mem<Clerk> {
    let schema = Schema {
        title: Text::of(alloc, "Marks")?,
        address: Text::of(alloc, "http://localhost:8080/wfs")?,
        space: Text::of(alloc, "http://example.org/marks")?,
        prefix: Text::of(alloc, "m")?,
        srs: List::of(Vec::new(alloc)),
        types: List::of(Vec::new(alloc)),
    };
    Ok(Clerk { schema })
}

const GET: &str = "GET / HTTP/1.1\r\nHost: h\r\n\r\n";

const CREATED: &str =
    "HTTP/1.1 200 OK\r\nContent-Type: text/xml\r\nContent-Length: 125\r\n\r\n<?xml version=\"1.0\" encoding=\"UTF-8\"?><wfs:CreateStoredQueryResponse xmlns:wfs=\"http://www.opengis.net/wfs/2.0\" status=\"OK\"/>";

const FULL: &str =
    "HTTP/1.1 503 Service Unavailable\r\nContent-Type: text/xml\r\nContent-Length: 262\r\n\r\n<?xml version=\"1.0\" encoding=\"UTF-8\"?><ows:ExceptionReport xmlns:ows=\"http://www.opengis.net/ows/1.1\" version=\"2.0.2\"><ows:Exception exceptionCode=\"NoApplicableCode\" locator=\"full\"><ows:ExceptionText>full</ows:ExceptionText></ows:Exception></ows:ExceptionReport>";

// Which takes of the first of two links fail, which calls of accept fail, the limit, the end, and what each link was given.
type Row = (
    &'static [u64],
    &'static [u64],
    Option<u32>,
    WorkerEnd,
    &'static str,
    &'static str,
);

static ROWS: [Row; 6] = [
    (&[], &[], None, WorkerEnd::NoMore, CREATED, FULL),
    (&[0], &[], None, WorkerEnd::NoMore, "", CREATED),
    (&[], &[], Some(2), WorkerEnd::LimitReached, CREATED, FULL),
    (&[], &[], Some(1), WorkerEnd::LimitReached, CREATED, ""),
    (&[], &[0], Some(0), WorkerEnd::LimitReached, "", ""),
    (&[], &[1], None, WorkerEnd::AcceptFault, CREATED, ""),
];

// A link of one message.
fn one_message(alloc: Global, failing: &[u64]) -> Mem<MemLink> {
    MemLink::new(
        alloc,
        Vec::from_slice(alloc, GET.as_bytes())?,
        9000,
        Vec::from_slice(alloc, failing)?,
        Vec::new(alloc),
    )
}

// An acceptor of two links of one message each.
fn two_links(alloc: Global, takes: &[u64], accepts: &[u64]) -> Mem<MemAcceptor> {
    let links = vec![in alloc; one_message(alloc, takes)?, one_message(alloc, &[])?]?;
    Ok(MemAcceptor::new(links, Vec::from_slice(alloc, accepts)?))
}

// A clock at the moments 0 and 1.
fn two_moments(alloc: Global) -> Mem<ListClock> {
    Ok(ListClock::new(Vec::from_slice(alloc, &[0, 1])?))
}

// Whether two links were given this.
fn are_given(links: &[MemLink], first: &str, second: &str) -> bool {
    match links {
        [a, b] => a.written() == first.as_bytes() && b.written() == second.as_bytes(),
        _ => false,
    }
}

// Whether a worker comes to what a row says.
fn is_so(alloc: Global, row: &Row) -> Mem<bool> {
    let (takes, accepts, limit, end, first, second) = *row;
    let mut acceptor = two_links(alloc, takes, accepts)?;
    let found = end_of(alloc, &mut acceptor, limit)?;
    Ok(found == end && are_given(acceptor.links(), first, second))
}

// How a worker over these links ends.
fn end_of(alloc: Global, acceptor: &mut MemAcceptor, limit: Option<u32>) -> Mem<WorkerEnd> {
    let mut clerk = new_clerk(alloc)?;
    let mut clock = two_moments(alloc)?;
    Ok(work(alloc, &mut clerk, acceptor, limit, &mut clock, &mut NoGate))
}

// The first row that comes to something else.
fn first_wrong(alloc: Global) -> Mem<Option<usize>> {
    for (number, row) in ROWS.iter().enumerate() {
        if !is_so(alloc, row)? {
            return Ok(Some(number));
        }
    }
    Ok(None)
}

#[test]
fn workers_come_to_their_ends(rt: HostRuntime) -> Result<(), Fail> {
    assert_eq!(rt; first_wrong(rt.alloc()), Ok(None));
    Ok(())
}

// A worker of two links.
fn new_worker(alloc: Global) -> Mem<Worker<Clerk, MemAcceptor, ListClock, NoGate>> {
    Ok(Worker {
        service: new_clerk(alloc)?,
        acceptor: two_links(alloc, &[], &[])?,
        clock: two_moments(alloc)?,
        gate: NoGate,
        end: None,
    })
}

// Whether a worker ended with a limit of two, and both its links were served.
fn has_served(worker: &Worker<Clerk, MemAcceptor, ListClock, NoGate>) -> bool {
    worker.end == Some(WorkerEnd::LimitReached) && are_given(worker.acceptor.links(), CREATED, FULL)
}

// Whether two workers in threads of their own serve all their links.
fn both_serve<R: Threads + Sync>(rt: &R, alloc: Global) -> Mem<bool> {
    let mut workers = [new_worker(alloc)?, new_worker(alloc)?];
    run_workers(rt, alloc, Some(2), &mut workers);
    let [a, b] = &workers;
    Ok(has_served(a) && has_served(b))
}

#[test]
fn workers_in_threads_serve_all_their_links(rt: HostRuntime) -> Result<(), Fail> {
    assert_eq!(rt; both_serve(&rt, rt.alloc()), Ok(true));
    Ok(())
}
