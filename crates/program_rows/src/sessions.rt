//! What sessions answer, and how they end.

use asked::{
    COUNTED, COUNTING, DESCRIBED, DESCRIBING, FOR_TWO_TYPES, LABELLED, LABELS, LOCKED_PAGES,
    OF_TWO_TYPES, PAGES_WITH_LOCKS, SET, SETTING,
};
use disk_core::{Disk, Pair};
use program_samples::{
    Answer, COLLECTION, End, FEATURES, INSERTED, LOCKED, Left, Message, REPORT, REPORT_END,
    REPORT_LOCATOR, REPORT_TEXT, SCHEMA, TWO_MARKS, answers_of, disk_with, end_of, go_empty, hold,
    length_of, make_ready, make_ready_at, messages_of, refusal, run,
};
use std::alloc::Global;
use std::sync::Wait;
use std::thread::Threads;
use wfs_ends::{ListClock, Mem, MemSink};

mod asked;

// Whether a session over an input whose listed takes fail, with an output of so many bytes, comes to an end and to an output.
fn comes_to<R: Threads + Wait + Sync>(
    rt: &R,
    alloc: Global,
    input: &str,
    failing: &[u64],
    room: u64,
    end: End,
    output: &str,
) -> Mem<bool> {
    let (found, out) = run(rt, alloc, &["talk", "d"], SCHEMA, input, failing, room)?;
    Ok(found == end && out.bytes() == output.as_bytes())
}

fn is_answered<R: Threads + Wait + Sync>(
    rt: &R,
    alloc: Global,
    input: &str,
    end: End,
    answers: &[Answer],
) -> Mem<bool> {
    let output = answers_of(alloc, answers)?;
    comes_to(rt, alloc, input, &[], 20_000, end, output.as_str())
}

// Whether a session over some messages comes to a status, to entries and to these answers.
fn talks<R: Threads + Wait + Sync>(
    rt: &R,
    alloc: Global,
    messages: &[Message],
    status: u8,
    entries: u64,
    answers: &[Answer],
) -> Mem<bool> {
    let input = messages_of(alloc, messages)?;
    is_answered(rt, alloc, input.as_str(), (status, Some(entries)), answers)
}

const MARK_2: &str =
    "1\" numberReturned=\"1\"><wfs:member><m:Mark gml:id=\"Mark.2\"><m:label>B</m:label></m:Mark></wfs:member></wfs:FeatureCollection>";

const PAST_THE_END: &str =
    "2\" numberReturned=\"0\" previous=\"http://localhost:8080/wfs?service=WFS&amp;request=GetFeature&amp;typeNames=Mark&amp;startIndex=0&amp;count=2\"/>";

// An Insert, a look-up of two ids, and a page past the end.
static INSERT_AND_ASK: [Message; 3] = [
    ("", TWO_MARKS),
    (
        "GET /wfs?service=WFS&request=GetFeature&resourceId=Mark.2,Mark.9 HTTP/1.1\r\nHost: h\r\n\r\n",
        "",
    ),
    (
        "GET /wfs?service=WFS&request=GetFeature&typeNames=Mark&startIndex=2&count=5 HTTP/1.1\r\nHost: h\r\n\r\n",
        "",
    ),
];

static INSERTED_AND_FOUND: [Answer; 3] = [
    ("200 OK", "text/xml", "", &[INSERTED]),
    ("200 OK", FEATURES, "", &[COLLECTION, MARK_2]),
    ("200 OK", FEATURES, "", &[COLLECTION, PAST_THE_END]),
];

#[test]
fn what_is_inserted_is_read_on_the_same_connection(rt: HostRuntime) {
    assert_eq!(rt; INSERTED.len(), 549);
    assert_eq!(rt;
        talks(&rt, rt.alloc(), &INSERT_AND_ASK, 0, 1, &INSERTED_AND_FOUND),
        Ok(true)
    );
}

const MARK_WITH_A_POINT: &str =
    "<m:Mark><m:label>A</m:label><m:place><gml:Point xmlns:gml=\"http://www.opengis.net/gml/3.2\"><gml:pos>12.0 7</gml:pos></gml:Point></m:place></m:Mark>";

const ONE_INSERTED: &str =
    "<?xml version=\"1.0\" encoding=\"UTF-8\"?><wfs:TransactionResponse xmlns:wfs=\"http://www.opengis.net/wfs/2.0\" xmlns:fes=\"http://www.opengis.net/fes/2.0\" version=\"2.0.2\"><wfs:TransactionSummary><wfs:totalInserted>1</wfs:totalInserted><wfs:totalUpdated>0</wfs:totalUpdated><wfs:totalReplaced>0</wfs:totalReplaced><wfs:totalDeleted>0</wfs:totalDeleted></wfs:TransactionSummary><wfs:InsertResults><wfs:Feature><fes:ResourceId rid=\"Mark.1\"/></wfs:Feature></wfs:InsertResults></wfs:TransactionResponse>";

const A_POINT: &str =
    "1\" numberReturned=\"1\"><wfs:member><m:Mark gml:id=\"Mark.1\"><m:label>A</m:label><m:place><gml:Point gml:id=\"Mark.1.place\" srsName=\"urn:ogc:def:crs:EPSG::25832\"><gml:pos>12 7</gml:pos></gml:Point></m:place></m:Mark></wfs:member></wfs:FeatureCollection>";

static POINT_IN: [Message; 2] = [
    ("", MARK_WITH_A_POINT),
    (
        "GET /wfs?SERVICE=WFS&REQUEST=GetFeature&TYPENAMES=m:Mark HTTP/1.1\r\nHost: h\r\n\r\n",
        "",
    ),
];

static POINT_OUT: [Answer; 2] = [
    ("200 OK", "text/xml", "", &[ONE_INSERTED]),
    ("200 OK", FEATURES, "", &[COLLECTION, A_POINT]),
];

#[test]
fn a_point_goes_in_and_comes_out(rt: HostRuntime) {
    assert_eq!(rt;
        talks(&rt, rt.alloc(), &POINT_IN, 0, 1, &POINT_OUT),
        Ok(true)
    );
}

static HITS: [Message; 1] = [(
    "GET /wfs?service=WFS&request=GetFeature&typeNames=m:Mark&resultType=hits HTTP/1.1\r\nHost: h\r\n\r\n",
    "",
)];

static NO_HITS: [Answer; 1] = [(
    "200 OK",
    FEATURES,
    "",
    &[COLLECTION, "0\" numberReturned=\"0\"/>"],
)];

#[test]
fn hits_of_nothing(rt: HostRuntime) {
    assert_eq!(rt; length_of(NO_HITS[0].3), 253);
    assert_eq!(rt; talks(&rt, rt.alloc(), &HITS, 0, 0, &NO_HITS), Ok(true));
}

// What a message is refused by: the message, the status and phrase, the code, the locator and the text.
type Refused = (
    &'static str,
    &'static str,
    &'static str,
    &'static str,
    &'static str,
);

static REFUSED: [Refused; 6] = [
    (
        "GET /wfs?service=WFS&request=GetFeature&typeNames=Nope HTTP/1.1\r\n\r\n",
        "400 Bad Request",
        "InvalidParameterValue",
        "typeNames",
        "value refused",
    ),
    (
        "GET /x HTTP/1.1\r\n\r\n",
        "404 Not Found",
        "NoApplicableCode",
        "path",
        "unknown path",
    ),
    (
        "PUT /wfs HTTP/1.1\r\nContent-Length: 0\r\n\r\n",
        "501 Not Implemented",
        "OperationNotSupported",
        "method",
        "unknown method",
    ),
    (
        "PUT /x HTTP/1.1\r\nContent-Length: 0\r\n\r\n",
        "404 Not Found",
        "NoApplicableCode",
        "path",
        "unknown path",
    ),
    (
        "POST /%77fs HTTP/1.1\r\nContent-Length: 1\r\n\r\nx",
        "400 Bad Request",
        "OperationParsingFailed",
        "document",
        "bad document",
    ),
    (
        "POST /wfs HTTP/1.1\r\nContent-Length: 203\r\n\r\n<wfs:Transaction service=\"WFS\" version=\"2.0.2\" xmlns:wfs=\"http://www.opengis.net/wfs/2.0\" xmlns:m=\"http://example.org/marks\"><wfs:Insert><m:Mark><m:sort>A</m:sort></m:Mark></wfs:Insert></wfs:Transaction>",
        "400 Bad Request",
        "InvalidValue",
        "sort",
        "value does not fit",
    ),
];

// Whether a message is refused so, and leaves no entry.
fn is_refused<R: Threads + Wait + Sync>(rt: &R, alloc: Global, row: &Refused) -> Mem<bool> {
    let (input, status, code, locator, text) = *row;
    let output = refusal(alloc, status, code, locator, text)?;
    comes_to(rt, alloc, input, &[], 20_000, (0, Some(0)), output.as_str())
}

// The first message of `REFUSED` that is answered otherwise.
fn answered_otherwise<R: Threads + Wait + Sync>(
    rt: &R,
    alloc: Global,
) -> Mem<Option<&'static str>> {
    for row in REFUSED.iter() {
        if !is_refused(rt, alloc, row)? {
            return Ok(Some(row.0));
        }
    }
    Ok(None)
}

#[test]
fn messages_are_refused_by_their_first_fault(rt: HostRuntime) {
    assert_eq!(rt; answered_otherwise(&rt, rt.alloc()), Ok(None));
}

// Two Inserts, of which the first asks that the connection be closed.
static CLOSING: [Message; 2] = [
    ("Connection: close\r\n", TWO_MARKS),
    ("Connection: close\r\n", TWO_MARKS),
];

static CLOSED: [Answer; 1] = [("200 OK", "text/xml", "Connection: close\r\n", &[INSERTED])];

static BAD_HEAD: [Message; 1] = [("G(T /x", "")];

static BAD_HEAD_REFUSED: [Answer; 1] = [(
    "400 Bad Request",
    "text/xml",
    "Connection: close\r\n",
    &[
        REPORT,
        "OperationParsingFailed",
        REPORT_LOCATOR,
        "head",
        REPORT_TEXT,
        "bad message head",
        REPORT_END,
    ],
)];

#[test]
fn a_session_ends_with_the_answer_that_closes_it(rt: HostRuntime) {
    let alloc = rt.alloc();
    assert_eq!(rt;
        talks(&rt, alloc, &CLOSING, 0, 1, &CLOSED),
        Ok(true),
        "closed"
    );
    assert_eq!(rt;
        talks(&rt, alloc, &BAD_HEAD, 12, 0, &BAD_HEAD_REFUSED),
        Ok(true),
        "bad head"
    );
}

// A head with a field's name that is none, and whose value goes on for more than the 16,384 bytes that a head may have.
fn long_bad_head(alloc: Global) -> Mem<String> {
    let mut text = String::from_str(alloc, "GET /wfs HTTP/1.1\r\na b: ")?;
    for _ in 0..20_000 {
        text.push_str("x")?;
    }
    Ok(text)
}

fn is_refused_as_bad<R: Threads + Wait + Sync>(rt: &R, alloc: Global) -> Mem<bool> {
    let input = long_bad_head(alloc)?;
    let output = answers_of(alloc, &BAD_HEAD_REFUSED)?;
    comes_to(
        rt,
        alloc,
        input.as_str(),
        &[],
        20_000,
        (12, Some(0)),
        output.as_str(),
    )
}

#[test]
fn a_bad_head_is_bad_and_not_too_long(rt: HostRuntime) {
    assert_eq!(rt; is_refused_as_bad(&rt, rt.alloc()), Ok(true));
}

// A lock on one of two marks, and one on both of them.
static LOCKING: [Message; 3] = [
    ("", TWO_MARKS),
    (
        "GET /wfs?service=WFS&request=LockFeature&resourceId=Mark.1 HTTP/1.1\r\nHost: h\r\n\r\n",
        "",
    ),
    (
        "GET /wfs?service=WFS&request=LockFeature&typeNames=Mark HTTP/1.1\r\nHost: h\r\n\r\n",
        "",
    ),
];

static LOCKED_AND_REFUSED: [Answer; 3] = [
    ("200 OK", "text/xml", "", &[INSERTED]),
    ("200 OK", "text/xml", "", &[LOCKED]),
    (
        "409 Conflict",
        "text/xml",
        "",
        &[
            REPORT,
            "CannotLockAllFeatures",
            REPORT_LOCATOR,
            "Mark.1",
            REPORT_TEXT,
            "not all are free",
            REPORT_END,
        ],
    ),
];

#[test]
fn a_locked_feature_is_not_locked_again(rt: HostRuntime) {
    assert_eq!(rt;
        talks(&rt, rt.alloc(), &LOCKING, 0, 3, &LOCKED_AND_REFUSED),
        Ok(true)
    );
}

#[test]
fn properties_are_set_in_order_and_replaced_as_a_whole(rt: HostRuntime) {
    assert_eq!(rt; talks(&rt, rt.alloc(), &SETTING, 0, 2, &SET), Ok(true));
}

#[test]
fn deletes_and_locators_are_of_their_own_type(rt: HostRuntime) {
    assert_eq!(rt;
        talks(&rt, rt.alloc(), &OF_TWO_TYPES, 0, 4, &FOR_TWO_TYPES),
        Ok(true)
    );
}

#[test]
fn pages_with_a_lock_are_collections_without_links(rt: HostRuntime) {
    assert_eq!(rt;
        talks(&rt, rt.alloc(), &PAGES_WITH_LOCKS, 0, 3, &LOCKED_PAGES),
        Ok(true)
    );
}

// The moments at which the messages of `COUNTING` come, in seconds.
static MOMENTS: [u64; 3] = [1000, 900, 18_446_744_073_709_551_615];

// Whether a session over this input, each message at its moment, comes to this output.
fn comes_to_at<R: Threads + Wait + Sync>(
    rt: &R,
    alloc: Global,
    input: &str,
    output: &str,
) -> Mem<bool> {
    let clock = ListClock::new(Vec::from_slice(alloc, &MOMENTS)?);
    let words = &["talk", "d"];
    let ready = make_ready_at(alloc, clock, words, SCHEMA, input, &[], 20_000)?;
    let (end, out) = go_empty(rt, alloc, ready)?;
    Ok(end == (0, Some(1)) && out.bytes() == output.as_bytes())
}

fn counts_at<R: Threads + Wait + Sync>(rt: &R, alloc: Global) -> Mem<bool> {
    let input = messages_of(alloc, &COUNTING)?;
    let output = answers_of(alloc, &COUNTED)?;
    comes_to_at(rt, alloc, input.as_str(), output.as_str())
}

#[test]
fn reads_print_their_own_moment(rt: HostRuntime) {
    assert_eq!(rt; counts_at(&rt, rt.alloc()), Ok(true));
}

#[test]
fn types_stand_in_the_order_asked(rt: HostRuntime) {
    assert_eq!(rt;
        talks(&rt, rt.alloc(), &DESCRIBING, 0, 0, &DESCRIBED),
        Ok(true)
    );
}

#[test]
fn values_are_of_the_type_of_the_first_query(rt: HostRuntime) {
    assert_eq!(rt; talks(&rt, rt.alloc(), &LABELS, 0, 2, &LABELLED), Ok(true));
}

static EXPECTING: [Message; 2] = [
    ("Expect: 100-continue\r\n", TWO_MARKS),
    (
        "POST /wfs HTTP/1.1\r\nContent-Length: 200\r\n\r\n0123456789",
        "",
    ),
];

static CONTINUED: [Answer; 2] = [
    ("100 Continue", "", "", &[]),
    ("200 OK", "text/xml", "", &[INSERTED]),
];

#[test]
fn a_body_is_asked_for_and_a_message_may_be_cut(rt: HostRuntime) {
    assert_eq!(rt;
        talks(&rt, rt.alloc(), &EXPECTING, 10, 1, &CONTINUED),
        Ok(true)
    );
}

// Words, a schema, and the status and the line that a run over them comes to. Words and schema are judged before the store is started, so
// none of these asks a disk.
static LINES: [(&[&str], &str, u8, &str); 8] = [
    (&["talk"], SCHEMA, 2, "wfsd: bad words\n"),
    (&["talk", "-d"], SCHEMA, 2, "wfsd: bad words\n"),
    (
        &["talk", "d"],
        "title = \"Marks\"\naddress = \"a\"\nnamespace = \"n\"\nprefix = \"m\"\n[[type]]\nname = \"Mark\"\nproperty = []\n",
        3,
        "wfsd: schema refused: Key srs\n",
    ),
    (&["talk", "d"], "=", 3, "wfsd: schema refused: NotToml\n"),
    (&["check", "d"], "=", 3, "wfsd: schema refused: NotToml\n"),
    (&["compact", "d"], "=", 3, "wfsd: schema refused: NotToml\n"),
    (
        &["drill", "3", "d"],
        "=",
        3,
        "wfsd: schema refused: NotToml\n",
    ),
    (
        &["serve", "--listen", "x", "--workers", "1", "d"],
        "=",
        3,
        "wfsd: schema refused: NotToml\n",
    ),
];

// Whether a run came to a status and a line, held no session, and asked no disk: of each the first call, which fails, is the one made here.
fn is_line(held: (Left, MemSink), status: u8, line: &str) -> bool {
    let (left, out) = held;
    let is_so = end_of(&left) == (status, None) && out.bytes() == line.as_bytes();
    match left.disks {
        Some(mut disks) => is_so && disks.a.len().is_err() && disks.b.len().is_err(),
        None => false,
    }
}

// Whether a run over this schema and an input comes to a status and a line, before any disk is asked.
fn says<R: Threads + Wait + Sync>(
    rt: &R,
    alloc: Global,
    words: &[&str],
    schema: &str,
    status: u8,
    line: &str,
) -> Mem<bool> {
    let input = "GET / HTTP/1.1\r\n\r\n";
    let ready = make_ready(alloc, words, schema, input, &[], 1_000)?;
    let a = disk_with(alloc, b"", &[0], None)?;
    let b = disk_with(alloc, b"", &[0], None)?;
    Ok(is_line(hold(rt, alloc, ready, Pair { a, b }), status, line))
}

// The first row of `LINES` of which something else comes.
fn said_otherwise<R: Threads + Wait + Sync>(rt: &R, alloc: Global) -> Mem<Option<usize>> {
    for i in 0..LINES.len() {
        let (words, schema, status, line) = LINES[i];
        if !says(rt, alloc, words, schema, status, line)? {
            return Ok(Some(i));
        }
    }
    Ok(None)
}

#[test]
fn words_and_schemas_are_refused_by_a_line(rt: HostRuntime) {
    assert_eq!(rt; said_otherwise(&rt, rt.alloc()), Ok(None));
}

// The schema with line feeds behind it, so many bytes in all.
fn schema_of(alloc: Global, length: usize) -> Mem<String> {
    let mut text = String::from_str(alloc, SCHEMA)?;
    for _ in SCHEMA.len()..length {
        text.push_str("\n")?;
    }
    Ok(text)
}

// Whether a session without a message, over a schema of so many bytes, comes to an end and to an output.
fn ends_over<R: Threads + Wait + Sync>(
    rt: &R,
    alloc: Global,
    length: usize,
    end: End,
    output: &str,
) -> Mem<bool> {
    let schema = schema_of(alloc, length)?;
    let (found, out) = run(rt, alloc, &["talk", "d"], schema.as_str(), "", &[], 1_000)?;
    Ok(found == end && out.bytes() == output.as_bytes())
}

#[test]
fn a_schema_has_so_many_bytes_at_most(rt: HostRuntime) {
    // 1,048,576 are not too many; one more is refused, and is no fault of the file
    assert_eq!(rt;
        ends_over(&rt, rt.alloc(), 1_048_576, (0, Some(0)), ""),
        Ok(true),
        "the most"
    );
    assert_eq!(rt;
        ends_over(
            &rt,
            rt.alloc(),
            1_048_577,
            (3, None),
            "wfsd: schema refused: TooMany\n"
        ),
        Ok(true),
        "one more"
    );
}

static TWO: [Message; 1] = [("", TWO_MARKS)];

static TWO_INSERTED: [Answer; 1] = [("200 OK", "text/xml", "", &[INSERTED])];

// Whether a session that inserts two marks, with faults of its ends, leaves their entry and comes to this status and output.
fn ends_with<R: Threads + Wait + Sync>(
    rt: &R,
    alloc: Global,
    failing: &[u64],
    room: u64,
    status: u8,
    output: &str,
) -> Mem<bool> {
    let input = messages_of(alloc, &TWO)?;
    comes_to(
        rt,
        alloc,
        input.as_str(),
        failing,
        room,
        (status, Some(1)),
        output,
    )
}

fn ends_behind_its_answer<R: Threads + Wait + Sync>(rt: &R, alloc: Global) -> Mem<bool> {
    let output = answers_of(alloc, &TWO_INSERTED)?;
    ends_with(rt, alloc, &[1, 2, 3], 9_000, 4, output.as_str())
}

#[test]
fn faults_of_the_ends_have_their_status(rt: HostRuntime) {
    assert_eq!(rt;
        ends_with(&rt, rt.alloc(), &[], 9, 7, "HTTP/1.1 "),
        Ok(true)
    );
    assert_eq!(rt; ends_behind_its_answer(&rt, rt.alloc()), Ok(true));
}
