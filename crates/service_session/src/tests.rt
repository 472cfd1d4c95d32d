//! Sessions of a service that answers by the moment alone. What is expected is written from the formats' own words.

use crate::{Answered, Gate, GatePoint, NoGate, Service, SessionEnd, session};
use feature_values::Schema;
use http_session::{Message, Reader};
use std::alloc::Global;
use std::test::Fail;
use wfs_ends::{Buffer, List, ListClock, Mem, MemLink, Text};
use wfs_model::Reply;

// Answers by the moment alone, and counts the messages that it judged.
#[derive(Drop)]
struct Clerk {
    schema: Schema,
    judged: u64,
}

impl Service for Clerk {
    ghost use Rattle.std.proofs.Common.{◌≡◌, refl, ◌∙◌};
    ghost use Rattle.service_session.specs.declared.answered.Answered.TheVariants as answered;

    ghost schema = { λ c. c.schema };

    ghost judges = { λ c m last moment a d. moment ≡ 1 → a ≡ answered.Full };

    ghost leads = { λ c d. d.schema ≡ c.schema };

    ghost stays = { λ c. refl };

    ghost follows = { λ c d e h k. k ∙ h };

    fn schema(&self) -> &Schema {
        &self.schema
    }

    fn judge<G: Gate>(
        &mut self,
        _alloc: Global,
        _message: &Message,
        _is_last: bool,
        moment: u64,
        gate: &mut G,
    ) -> Answered {
        gate.reach(GatePoint::InTurn);
        self.judged = self.judged.saturating_add(1);
        match moment {
            0 => Answered::Reply(Reply::Created),
            1 => Answered::Full,
            2 => Answered::StoreFault,
            _ => Answered::OutOfMemory,
        }
    }
}

// Counts the points at which it is reached.
#[derive(Drop)]
struct Counts {
    in_turn: u64,
    before_answer: u64,
}

impl Gate for Counts {
    fn reach(&mut self, point: GatePoint) {
        match point {
            GatePoint::InTurn => self.in_turn = self.in_turn.saturating_add(1),
            GatePoint::BeforeAnswer => {
                self.before_answer = self.before_answer.saturating_add(1);
            }
        }
    }
}

// A schema of no feature types.
fn no_types(alloc: Global) -> Mem<Schema> {
    Ok(Schema {
        title: Text::of(alloc, "Marks")?,
        address: Text::of(alloc, "http://localhost:8080/wfs")?,
        space: Text::of(alloc, "http://example.org/marks")?,
        prefix: Text::of(alloc, "m")?,
        srs: List::of(Vec::new(alloc)),
        types: List::of(Vec::new(alloc)),
    })
}

// Holds a session of a clerk at the moments 0, 1, 2 and 3.
fn hold<G: Gate>(
    alloc: Global,
    clerk: &mut Clerk,
    link: &mut MemLink,
    gate: &mut G,
) -> Mem<SessionEnd> {
    let moments = Vec::from_slice(alloc, &[0, 1, 2, 3])?;
    let mut reader = Reader::new(alloc)?;
    let mut buffer = Buffer::new(alloc)?;
    let mut clock = ListClock::new(moments);
    Ok(session(
        alloc,
        clerk,
        link,
        &mut clock,
        gate,
        &mut reader,
        &mut buffer,
    ))
}

// An input, the takes that fail, the room of the output, the end, how many messages are judged, and the output.
type Row = (
    &'static str,
    &'static [u64],
    u64,
    SessionEnd,
    u64,
    &'static str,
);

static ROWS: [Row; 6] = [
    (
        "GET / HTTP/1.1\r\nHost: h\r\n\r\nGET / HTTP/1.1\r\nHost: h\r\n\r\nGET / HTTP/1.1\r\nHost: h\r\n\r\nGET / HTTP/1.1\r\nHost: h\r\nConnection: close\r\n\r\nGET / HTTP/1.1\r\nHost: h\r\n\r\n",
        &[],
        9000,
        SessionEnd::Closed,
        4,
        "HTTP/1.1 200 OK\r\nContent-Type: text/xml\r\nContent-Length: 125\r\n\r\n<?xml version=\"1.0\" encoding=\"UTF-8\"?><wfs:CreateStoredQueryResponse xmlns:wfs=\"http://www.opengis.net/wfs/2.0\" status=\"OK\"/>HTTP/1.1 503 Service Unavailable\r\nContent-Type: text/xml\r\nContent-Length: 262\r\n\r\n<?xml version=\"1.0\" encoding=\"UTF-8\"?><ows:ExceptionReport xmlns:ows=\"http://www.opengis.net/ows/1.1\" version=\"2.0.2\"><ows:Exception exceptionCode=\"NoApplicableCode\" locator=\"full\"><ows:ExceptionText>full</ows:ExceptionText></ows:Exception></ows:ExceptionReport>HTTP/1.1 500 Internal Server Error\r\nContent-Type: text/xml\r\nContent-Length: 270\r\n\r\n<?xml version=\"1.0\" encoding=\"UTF-8\"?><ows:ExceptionReport xmlns:ows=\"http://www.opengis.net/ows/1.1\" version=\"2.0.2\"><ows:Exception exceptionCode=\"NoApplicableCode\" locator=\"store\"><ows:ExceptionText>store fault</ows:ExceptionText></ows:Exception></ows:ExceptionReport>HTTP/1.1 503 Service Unavailable\r\nContent-Type: text/xml\r\nContent-Length: 269\r\nConnection: close\r\n\r\n<?xml version=\"1.0\" encoding=\"UTF-8\"?><ows:ExceptionReport xmlns:ows=\"http://www.opengis.net/ows/1.1\" version=\"2.0.2\"><ows:Exception exceptionCode=\"NoApplicableCode\" locator=\"memory\"><ows:ExceptionText>no memory</ows:ExceptionText></ows:Exception></ows:ExceptionReport>",
    ),
    ("", &[], 9000, SessionEnd::Ended, 0, ""),
    ("GET / HTTP/1.1\r\n", &[], 9000, SessionEnd::Cut, 0, ""),
    (
        "GET / HTTP/1.1\r\nHost: h\r\n\r\nGET /\r\n",
        &[],
        9000,
        SessionEnd::Unframed,
        1,
        "HTTP/1.1 200 OK\r\nContent-Type: text/xml\r\nContent-Length: 125\r\n\r\n<?xml version=\"1.0\" encoding=\"UTF-8\"?><wfs:CreateStoredQueryResponse xmlns:wfs=\"http://www.opengis.net/wfs/2.0\" status=\"OK\"/>HTTP/1.1 400 Bad Request\r\nContent-Type: text/xml\r\nContent-Length: 280\r\nConnection: close\r\n\r\n<?xml version=\"1.0\" encoding=\"UTF-8\"?><ows:ExceptionReport xmlns:ows=\"http://www.opengis.net/ows/1.1\" version=\"2.0.2\"><ows:Exception exceptionCode=\"OperationParsingFailed\" locator=\"head\"><ows:ExceptionText>bad message head</ows:ExceptionText></ows:Exception></ows:ExceptionReport>",
    ),
    (
        "GET / HTTP/1.1\r\nHost: h\r\n\r\n",
        &[0],
        9000,
        SessionEnd::ReadFault,
        0,
        "",
    ),
    (
        "GET / HTTP/1.1\r\nHost: h\r\n\r\n",
        &[],
        12,
        SessionEnd::WriteFault,
        1,
        "HTTP/1.1 200",
    ),
];

// Whether a session over the input of a row comes to what the row says.
fn is_so(alloc: Global, row: &Row) -> Mem<bool> {
    let (input, failing, room, end, judged, output) = *row;
    let mut clerk = Clerk {
        schema: no_types(alloc)?,
        judged: 0,
    };
    let mut link = MemLink::new(
        alloc,
        Vec::from_slice(alloc, input.as_bytes())?,
        room,
        Vec::from_slice(alloc, failing)?,
        Vec::new(alloc),
    )?;
    let found = hold(alloc, &mut clerk, &mut link, &mut NoGate)?;
    Ok(found == end && clerk.judged == judged && link.written() == output.as_bytes())
}

// The first row that comes to something else.
fn first_wrong(alloc: Global) -> Mem<Option<usize>> {
    for (number, row) in ROWS.iter().enumerate() {
        if !is_so(alloc, row)? {
            return Ok(Some(number));
        }
    }
    Ok(None)
}

#[test]
fn sessions_come_to_their_ends(rt: HostRuntime) -> Result<(), Fail> {
    assert_eq!(rt; first_wrong(rt.alloc()), Ok(None));
    Ok(())
}

// How often a gate is reached in the first row's session: in the service's turn, and before an answer.
fn reached(alloc: Global) -> Mem<(u64, u64)> {
    let (input, ..) = ROWS[0];
    let mut clerk = Clerk {
        schema: no_types(alloc)?,
        judged: 0,
    };
    let mut link = MemLink::new(
        alloc,
        Vec::from_slice(alloc, input.as_bytes())?,
        0,
        Vec::new(alloc),
        Vec::new(alloc),
    )?;
    let mut gate = Counts {
        in_turn: 0,
        before_answer: 0,
    };
    hold(alloc, &mut clerk, &mut link, &mut gate)?;
    Ok((gate.in_turn, gate.before_answer))
}

#[test]
fn a_gate_is_reached_before_the_first_byte_of_an_answer(rt: HostRuntime) -> Result<(), Fail> {
    assert_eq!(rt; reached(rt.alloc()), Ok((1, 1)));
    Ok(())
}
