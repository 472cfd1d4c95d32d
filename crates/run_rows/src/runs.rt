//! Runs on the same two files, one after the other: what was acknowledged is there in the next run.

use disk_core::{Disk, MemDisk, Pair};
use program_samples::{
    Answer, COLLECTION, End, FEATURES, INSERTED, LOCKED, Left, Message, REPORT, REPORT_END,
    REPORT_LOCATOR, REPORT_TEXT, Ready, SCHEMA, TWO_MARKS, answers_of, disk_with, empty, end_of,
    hold, make_ready, make_ready_failing, messages_of, run,
};
use std::alloc::Global;
use std::sync::Wait;
use std::test::Fail;
use std::thread::Threads;
use wfs_ends::{Mem, MemSink};

// A run: its words, the messages of its input, and the status, the answers and the line that it comes to.
type Run = (
    &'static [&'static str],
    &'static [Message],
    u8,
    &'static [Answer],
    &'static str,
);

const TALK: &[&str] = &["talk", "d"];

fn output_of(alloc: Global, answers: &[Answer], line: &str) -> Mem<String> {
    let mut output = answers_of(alloc, answers)?;
    output.push_str(line)?;
    Ok(output)
}

fn ready_for(alloc: Global, run: &Run) -> Mem<Ready> {
    let input = messages_of(alloc, run.1)?;
    make_ready(alloc, run.0, SCHEMA, input.as_str(), &[], 20_000)
}

// The disks that are left, where a run came to a status and an output.
fn disks_if(held: (Left, MemSink), status: u8, output: &[u8]) -> Option<Pair<MemDisk>> {
    let (left, out) = held;
    if left.status == status && out.bytes() == output {
        return left.disks;
    }
    None
}

// Does a run on the files that are left so far. None where it comes to something else.
fn go<R: Threads + Wait + Sync>(
    rt: &R,
    alloc: Global,
    run: &Run,
    disks: Option<Pair<MemDisk>>,
) -> Mem<Option<Pair<MemDisk>>> {
    let output = output_of(alloc, run.3, run.4)?;
    let ready = ready_for(alloc, run)?;
    Ok(match disks {
        Some(disks) => disks_if(hold(rt, alloc, ready, disks), run.2, output.as_bytes()),
        None => None,
    })
}

// Does runs in an empty folder, one after the other, and answers the files. None where one of them comes to something else.
fn go_all<R: Threads + Wait + Sync>(
    rt: &R,
    alloc: Global,
    runs: &[Run],
) -> Mem<Option<Pair<MemDisk>>> {
    let mut disks = Some(empty(alloc)?);
    for run in runs {
        disks = go(rt, alloc, run, disks)?;
    }
    Ok(disks)
}

fn reads(disk: &mut MemDisk, want: &[u8]) -> bool {
    let mut into = [0; 400];
    match disk.read(0, &mut into) {
        Ok(n) => n <= 400 && &into[..n] == want,
        Err(_) => false,
    }
}

fn has_length(disk: &mut MemDisk, length: u64) -> bool {
    disk.len() == Ok(length)
}

// Whether runs in an empty folder come to what they say, and leave files of these lengths.
fn come_to<R: Threads + Wait + Sync>(
    rt: &R,
    alloc: Global,
    runs: &[Run],
    a: u64,
    b: u64,
) -> Mem<bool> {
    match go_all(rt, alloc, runs)? {
        Some(mut disks) => Ok(has_length(&mut disks.a, a) && has_length(&mut disks.b, b)),
        None => Ok(false),
    }
}

const TWO: Run = (
    TALK,
    &[("", TWO_MARKS)],
    0,
    &[("200 OK", "text/xml", "", &[INSERTED])],
    "",
);

const HITS: Message = (
    "GET /wfs?service=WFS&request=GetFeature&typeNames=m:Mark&resultType=hits HTTP/1.1\r\nHost: h\r\n\r\n",
    "",
);

const TWO_HITS: Answer = (
    "200 OK",
    FEATURES,
    "",
    &[COLLECTION, "2\" numberReturned=\"0\"/>"],
);

// ---- identifiers, and how long a side is

const THIRD: &str =
    "<?xml version=\"1.0\" encoding=\"UTF-8\"?><wfs:TransactionResponse xmlns:wfs=\"http://www.opengis.net/wfs/2.0\" xmlns:fes=\"http://www.opengis.net/fes/2.0\" version=\"2.0.2\"><wfs:TransactionSummary><wfs:totalInserted>1</wfs:totalInserted><wfs:totalUpdated>0</wfs:totalUpdated><wfs:totalReplaced>0</wfs:totalReplaced><wfs:totalDeleted>0</wfs:totalDeleted></wfs:TransactionSummary><wfs:InsertResults><wfs:Feature><fes:ResourceId rid=\"Mark.3\"/></wfs:Feature></wfs:InsertResults></wfs:TransactionResponse>";

static THIRD_MARK: [Run; 2] = [
    TWO,
    (
        TALK,
        &[("", "<m:Mark><m:label>C</m:label></m:Mark>")],
        0,
        &[("200 OK", "text/xml", "", &[THIRD])],
        "",
    ),
];

#[test]
fn identifiers_go_on_in_the_next_run(rt: HostRuntime) -> Result<(), Fail> {
    // an opening has 107 bytes, two marks 52 and one 31, behind a head of 16 and before a last gate
    assert_eq!(rt;
        come_to(&rt, rt.alloc(), &THIRD_MARK[..1], 176, 0),
        Ok(true),
        "two marks"
    );
    assert_eq!(rt;
        come_to(&rt, rt.alloc(), &THIRD_MARK, 314, 0),
        Ok(true),
        "a third one"
    );
    Ok(())
}

// ---- bytes

static NO_MESSAGE: [Run; 1] = [(TALK, &[], 0, &[], "")];

const OPENED: &[u8] =
    b"\x01WFSJNL\x01\0\0\0\0\0\0\0\x01\x01\0\0\0f\x01\0\0\0\0\0\0\0\x01\0\0\0YMark(label:text,size:integer,place:point);Field(name:text,area:polygon);Way(course:line);\0";

const CHECKPOINT: &[u8] =
    b"\x01WFSJNL\x01\0\0\0\0\0\0\0\x02\x01\0\0\0\x23\x05\0\0\0\0\0\0\0\x02\0\x03\0\0\0\0\0\0\0\x02\0\0\0\0\0\0\0\0\0\0\0\0\0\0\0\0\x01\0\0\0\x2f\x02\0\0\0\x02\x01\0\0\0\0\0\0\0\0\0\x01\0\x03\x01\0\0\0\x01A\0\0\x01\0\0\0\0\0\0\0\0\0\x02\0\x03\x01\0\0\0\x01B\0\0\0";

// Whether runs in an empty folder leave these bytes on one side.
fn leaves<R: Threads + Wait + Sync>(
    rt: &R,
    alloc: Global,
    runs: &[Run],
    second: bool,
    want: &[u8],
) -> Mem<bool> {
    match go_all(rt, alloc, runs)? {
        Some(mut disks) if second => Ok(reads(&mut disks.b, want)),
        Some(mut disks) => Ok(reads(&mut disks.a, want)),
        None => Ok(false),
    }
}

#[test]
fn a_first_run_makes_side_a(rt: HostRuntime) -> Result<(), Fail> {
    assert_eq!(rt; OPENED.len(), 124);
    assert_eq!(rt;
        leaves(&rt, rt.alloc(), &NO_MESSAGE, false, OPENED),
        Ok(true)
    );
    Ok(())
}

// ---- a side of a million bytes

// A side's head and the first opening: 16 + 107 bytes.
const FIRST: &[u8] =
    b"\x01WFSJNL\x01\0\0\0\0\0\0\0\x01\x01\0\0\0f\x01\0\0\0\0\0\0\0\x01\0\0\0YMark(label:text,size:integer,place:point);Field(name:text,area:polygon);Way(course:line);";

// The record that puts Mark.1 with the label A: 31 bytes.
const MARK_1: &[u8] =
    b"\x01\0\0\0\x1a\x02\0\0\0\x01\x01\0\0\0\0\0\0\0\0\0\x01\0\x03\x01\0\0\0\x01A\0\0";

// The first opening, and the same mark put 33,000 times: 123 + 33,000 x 31 + 1 = 1,023,124 bytes.
fn long_side(alloc: Global) -> Mem<Vec<u8>> {
    let mut bytes = Vec::from_slice(alloc, FIRST)?;
    for _ in 0..33_000 {
        bytes.extend_from_slice(MARK_1)?;
    }
    bytes.push(0)?;
    Ok(bytes)
}

fn with_long_side(alloc: Global) -> Mem<Pair<MemDisk>> {
    Ok(Pair {
        a: disk_with(alloc, &long_side(alloc)?, &[], None)?,
        b: disk_with(alloc, b"", &[], None)?,
    })
}

// Whether a session without a message adds just its opening, of 107 bytes, to that side.
fn goes_on_behind<R: Threads + Wait + Sync>(rt: &R, alloc: Global) -> Mem<bool> {
    let disks = with_long_side(alloc)?;
    match go(rt, alloc, &NO_MESSAGE[0], Some(disks))? {
        Some(mut disks) => Ok(has_length(&mut disks.a, 1_023_231) && has_length(&mut disks.b, 0)),
        None => Ok(false),
    }
}

#[test]
fn a_side_of_a_million_bytes_has_room(rt: HostRuntime) -> Result<(), Fail> {
    // a side may have 268,435,456 bytes, and a start leaves one of 67,108,864 or less as it is
    assert_eq!(rt; goes_on_behind(&rt, rt.alloc()), Ok(true));
    Ok(())
}

// ---- locks

const NEW_LOCK: &str =
    "<?xml version=\"1.0\" encoding=\"UTF-8\"?><wfs:LockFeatureResponse xmlns:wfs=\"http://www.opengis.net/wfs/2.0\" xmlns:fes=\"http://www.opengis.net/fes/2.0\" lockId=\"lock-2-1\"><wfs:FeaturesLocked><fes:ResourceId rid=\"Mark.1\"/></wfs:FeaturesLocked></wfs:LockFeatureResponse>";

const EXPIRED: &[&str] = &[
    REPORT,
    "LockHasExpired",
    REPORT_LOCATOR,
    "lockId",
    REPORT_TEXT,
    "lock has expired",
    REPORT_END,
];

const UNKNOWN: &[&str] = &[
    REPORT,
    "InvalidLockId",
    REPORT_LOCATOR,
    "lockId",
    REPORT_TEXT,
    "unknown lock",
    REPORT_END,
];

const LOCK_MARK_1: Message = (
    "GET /wfs?service=WFS&request=LockFeature&resourceId=Mark.1 HTTP/1.1\r\nHost: h\r\n\r\n",
    "",
);

static LOCKS: [Run; 2] = [
    (
        TALK,
        &[("", TWO_MARKS), LOCK_MARK_1],
        0,
        &[
            ("200 OK", "text/xml", "", &[INSERTED]),
            ("200 OK", "text/xml", "", &[LOCKED]),
        ],
        "",
    ),
    (
        TALK,
        &[
            (
                "POST /wfs HTTP/1.1\r\nHost: h\r\nContent-Length: 109\r\n\r\n<wfs:Transaction service=\"WFS\" version=\"2.0.2\" lockId=\"lock-1-1\" xmlns:wfs=\"http://www.opengis.net/wfs/2.0\"/>",
                "",
            ),
            (
                "POST /wfs HTTP/1.1\r\nHost: h\r\nContent-Length: 109\r\n\r\n<wfs:Transaction service=\"WFS\" version=\"2.0.2\" lockId=\"lock-2-1\" xmlns:wfs=\"http://www.opengis.net/wfs/2.0\"/>",
                "",
            ),
            (
                "POST /wfs HTTP/1.1\r\nHost: h\r\nContent-Length: 109\r\n\r\n<wfs:Transaction service=\"WFS\" version=\"2.0.2\" lockId=\"lock-3-1\" xmlns:wfs=\"http://www.opengis.net/wfs/2.0\"/>",
                "",
            ),
            HITS,
            LOCK_MARK_1,
        ],
        0,
        &[
            ("403 Forbidden", "text/xml", "", EXPIRED),
            ("400 Bad Request", "text/xml", "", UNKNOWN),
            ("400 Bad Request", "text/xml", "", UNKNOWN),
            TWO_HITS,
            ("200 OK", "text/xml", "", &[NEW_LOCK]),
        ],
        "",
    ),
];

const TWO_LOCKED: &[&str] = &[
    "<?xml version=\"1.0\" encoding=\"UTF-8\"?><wfs:LockFeatureResponse xmlns:wfs=\"http://www.opengis.net/wfs/2.0\" xmlns:fes=\"http://www.opengis.net/fes/2.0\" lockId=\"lock-1-1\"><wfs:FeaturesLocked><fes:ResourceId rid=\"Mark.1\"/><fes:ResourceId rid=\"Mark.2\"/></wfs:FeaturesLocked></wfs:LockFeatureResponse>",
];

static RENEWED: [Run; 1] = [(
    TALK,
    &[
        ("", TWO_MARKS),
        (
            "GET /wfs?service=WFS&request=LockFeature&typeNames=Mark HTTP/1.1\r\nHost: h\r\n\r\n",
            "",
        ),
        (
            "GET /wfs?service=WFS&request=LockFeature&lockId=lock-1-1 HTTP/1.1\r\nHost: h\r\n\r\n",
            "",
        ),
    ],
    0,
    &[
        ("200 OK", "text/xml", "", &[INSERTED]),
        ("200 OK", "text/xml", "", TWO_LOCKED),
        ("200 OK", "text/xml", "", TWO_LOCKED),
    ],
    "",
)];

#[test]
fn a_renewal_tells_what_the_lock_holds(rt: HostRuntime) -> Result<(), Fail> {
    assert_eq!(rt; go_on(&rt, rt.alloc(), &RENEWED), Ok(true));
    Ok(())
}

#[test]
fn locks_end_with_their_run(rt: HostRuntime) -> Result<(), Fail> {
    assert_eq!(rt; come_to(&rt, rt.alloc(), &LOCKS, 283, 0), Ok(true));
    Ok(())
}

// ---- stored queries

const CREATED: &str =
    "<?xml version=\"1.0\" encoding=\"UTF-8\"?><wfs:CreateStoredQueryResponse xmlns:wfs=\"http://www.opengis.net/wfs/2.0\" status=\"OK\"/>";

const LISTED: &str =
    "<?xml version=\"1.0\" encoding=\"UTF-8\"?><wfs:ListStoredQueriesResponse xmlns:wfs=\"http://www.opengis.net/wfs/2.0\" xmlns:m=\"http://example.org/marks\"><wfs:StoredQuery id=\"urn:ogc:def:query:OGC-WFS::GetFeatureById\"><wfs:ReturnFeatureType>m:Mark</wfs:ReturnFeatureType><wfs:ReturnFeatureType>m:Field</wfs:ReturnFeatureType><wfs:ReturnFeatureType>m:Way</wfs:ReturnFeatureType></wfs:StoredQuery><wfs:StoredQuery id=\"urn:x:by\"><wfs:ReturnFeatureType>m:Mark</wfs:ReturnFeatureType></wfs:StoredQuery></wfs:ListStoredQueriesResponse>";

const MARK_2: &str =
    "1\" numberReturned=\"1\"><wfs:member><m:Mark gml:id=\"Mark.2\"><m:label>B</m:label></m:Mark></wfs:member></wfs:FeatureCollection>";

static STORED: [Run; 2] = [
    (
        TALK,
        &[
            (
                "POST /wfs HTTP/1.1\r\nHost: h\r\nContent-Length: 551\r\n\r\n<wfs:CreateStoredQuery service=\"WFS\" version=\"2.0.2\" xmlns:wfs=\"http://www.opengis.net/wfs/2.0\" xmlns:fes=\"http://www.opengis.net/fes/2.0\" xmlns:m=\"http://example.org/marks\"><wfs:StoredQueryDefinition id=\"urn:x:by\"><wfs:Parameter name=\"l\" type=\"xs:string\"/><wfs:QueryExpressionText><wfs:Query typeNames=\"m:Mark\"><fes:Filter><fes:PropertyIsEqualTo><fes:ValueReference>label</fes:ValueReference><fes:Literal>${l}</fes:Literal></fes:PropertyIsEqualTo></fes:Filter></wfs:Query></wfs:QueryExpressionText></wfs:StoredQueryDefinition></wfs:CreateStoredQuery>",
                "",
            ),
            ("", TWO_MARKS),
        ],
        0,
        &[
            ("200 OK", "text/xml", "", &[CREATED]),
            ("200 OK", "text/xml", "", &[INSERTED]),
        ],
        "",
    ),
    (
        TALK,
        &[
            (
                "GET /wfs?service=WFS&request=ListStoredQueries HTTP/1.1\r\nHost: h\r\n\r\n",
                "",
            ),
            (
                "GET /wfs?service=WFS&request=GetFeature&storedQuery_id=urn:x:by&L=B HTTP/1.1\r\nHost: h\r\n\r\n",
                "",
            ),
        ],
        0,
        &[
            ("200 OK", "text/xml", "", &[LISTED]),
            ("200 OK", FEATURES, "", &[COLLECTION, MARK_2]),
        ],
        "",
    ),
];

#[test]
fn stored_queries_are_there_in_the_next_run(rt: HostRuntime) -> Result<(), Fail> {
    assert_eq!(rt; go_on(&rt, rt.alloc(), &STORED), Ok(true));
    Ok(())
}

// ---- check and compact

static CHECKED: [Run; 3] = [
    (
        &["check", "d"],
        &[],
        0,
        &[],
        "types 3 features 0 queries 0 openings 0\n",
    ),
    TWO,
    (
        &["check", "d"],
        &[],
        0,
        &[],
        "types 3 features 2 queries 0 openings 1\n",
    ),
];

#[test]
fn a_check_tells_what_is_there(rt: HostRuntime) -> Result<(), Fail> {
    assert_eq!(rt; come_to(&rt, rt.alloc(), &CHECKED, 176, 0), Ok(true));
    Ok(())
}

static COMPACTED: [Run; 4] = [
    TWO,
    (&["compact", "d"], &[], 0, &[], "side 283 to 109 bytes\n"),
    (
        &["check", "d"],
        &[],
        0,
        &[],
        "types 3 features 2 queries 0 openings 2\n",
    ),
    (TALK, &[HITS], 0, &[TWO_HITS], ""),
];

#[test]
fn a_journal_is_made_shorter(rt: HostRuntime) -> Result<(), Fail> {
    assert_eq!(rt; CHECKPOINT.len(), 109);
    assert_eq!(rt;
        leaves(&rt, rt.alloc(), &COMPACTED[..3], true, CHECKPOINT),
        Ok(true),
        "side b"
    );
    assert_eq!(rt;
        come_to(&rt, rt.alloc(), &COMPACTED, 283, 216),
        Ok(true),
        "the next run"
    );
    Ok(())
}

// ---- drills

static OF_THREE: [Run; 1] = [(
    &["drill", "3", "d"],
    &[],
    0,
    &[],
    "rounds 3 entries 6 features 3 matched 3 locked 3\n",
)];

// The first draws of a drill of one are 2,235 and 168,735.
static OF_ONE: [Run; 2] = [
    (
        &["drill", "1", "d"],
        &[],
        0,
        &[],
        "rounds 1 entries 2 features 1 matched 1 locked 1\n",
    ),
    (
        TALK,
        &[(
            "GET /wfs?service=WFS&request=GetFeature&typeNames=Mark&bbox=2235,168735,2235,168735&resultType=hits HTTP/1.1\r\nHost: h\r\n\r\n",
            "",
        )],
        0,
        &[(
            "200 OK",
            FEATURES,
            "",
            &[COLLECTION, "1\" numberReturned=\"0\"/>"],
        )],
        "",
    ),
];

static OF_FOUR: [Run; 2] = [
    (
        &["drill", "+4", "d"],
        &[],
        0,
        &[],
        "rounds 4 entries 9 features 3 matched 4 locked 4\n",
    ),
    (
        &["check", "d"],
        &[],
        0,
        &[],
        "types 3 features 3 queries 0 openings 1\n",
    ),
];

// The drill's mark is at its first draws. Of the marks that were there the first lies in its square, the second in the
// surroundings alone.
static BESIDE: [Run; 2] = [
    (
        TALK,
        &[(
            "",
            "<m:Mark><m:label>A</m:label><m:place><gml:Point xmlns:gml=\"http://www.opengis.net/gml/3.2\"><gml:pos>2240 168740</gml:pos></gml:Point></m:place></m:Mark><m:Mark><m:label>B</m:label><m:place><gml:Point xmlns:gml=\"http://www.opengis.net/gml/3.2\"><gml:pos>10000 168735</gml:pos></gml:Point></m:place></m:Mark>",
        )],
        0,
        &[("200 OK", "text/xml", "", &[INSERTED])],
        "",
    ),
    (
        &["drill", "1", "d"],
        &[],
        0,
        &[],
        "rounds 1 entries 2 features 3 matched 3 locked 2\n",
    ),
];

fn go_on<R: Threads + Wait + Sync>(rt: &R, alloc: Global, runs: &[Run]) -> Mem<bool> {
    Ok(go_all(rt, alloc, runs)?.is_some())
}

#[test]
fn a_drill_tells_what_it_came_to(rt: HostRuntime) -> Result<(), Fail> {
    assert_eq!(rt; go_on(&rt, rt.alloc(), &OF_ONE), Ok(true), "one round");
    assert_eq!(rt; go_on(&rt, rt.alloc(), &OF_THREE), Ok(true), "three");
    assert_eq!(rt; go_on(&rt, rt.alloc(), &OF_FOUR), Ok(true), "four");
    assert_eq!(rt; go_on(&rt, rt.alloc(), &BESIDE), Ok(true), "beside others");
    Ok(())
}

// ---- refusals

static REFUSED: [(&[&str], u8, &str); 12] = [
    (&[], 2, "wfsd: bad words\n"),
    (&["talk"], 2, "wfsd: bad words\n"),
    (&["talk", "a", "b"], 2, "wfsd: bad words\n"),
    (&["talk", "--", "a"], 2, "wfsd: bad words\n"),
    (
        &["serve", "--listen", "x", "--workers", "17", "d"],
        2,
        "wfsd: bad words\n",
    ),
    (
        &["serve", "--workers=2", "d", "--listen", "127.0.0.1:0"],
        6,
        "wfsd: not a journal: a 1\n",
    ),
    (&["drill", "0", "d"], 2, "wfsd: bad words\n"),
    (&["drill", "100001", "d"], 2, "wfsd: bad words\n"),
    (&["drill", "3", "d"], 6, "wfsd: not a journal: a 1\n"),
    (&["talk", "d"], 6, "wfsd: not a journal: a 1\n"),
    (&["check", "d"], 6, "wfsd: not a journal: a 1\n"),
    (&["compact", "d"], 6, "wfsd: not a journal: a 1\n"),
];

// Seventeen bytes that are no journal's from byte 1 on.
const FOREIGN: &[u8] = b"\x01XFSJNL\x01\0\0\0\0\0\0\0\x01\0";

// Whether a run over a foreign file came to this status and line, and the file stays.
fn is_refusal(held: (Left, MemSink), status: u8, line: &str) -> bool {
    let (left, out) = held;
    let is_so = end_of(&left) == (status, None) && out.bytes() == line.as_bytes();
    match left.disks {
        Some(mut disks) => is_so && reads(&mut disks.a, FOREIGN),
        None => false,
    }
}

fn is_refused<R: Threads + Wait + Sync>(
    rt: &R,
    alloc: Global,
    row: &(&[&str], u8, &str),
) -> Mem<bool> {
    let ready = make_ready(alloc, row.0, SCHEMA, "", &[], 1_000)?;
    let a = disk_with(alloc, FOREIGN, &[], None)?;
    let b = disk_with(alloc, b"", &[], None)?;
    Ok(is_refusal(hold(rt, alloc, ready, Pair { a, b }), row.1, row.2))
}

// The first row of `REFUSED` of which something else comes.
fn refused_otherwise<R: Threads + Wait + Sync>(rt: &R, alloc: Global) -> Mem<Option<usize>> {
    for i in 0..REFUSED.len() {
        if !is_refused(rt, alloc, &REFUSED[i])? {
            return Ok(Some(i));
        }
    }
    Ok(None)
}

#[test]
fn words_come_before_the_journal(rt: HostRuntime) -> Result<(), Fail> {
    assert_eq!(rt; FOREIGN.len(), 17);
    assert_eq!(rt; refused_otherwise(&rt, rt.alloc()), Ok(None));
    Ok(())
}

const OTHER_SCHEMA: &str =
    "title = \"Marks\"\naddress = \"http://localhost:8080/wfs\"\nnamespace = \"http://example.org/marks\"\nprefix = \"m\"\nsrs = [\"EPSG:25832\"]\n[[type]]\nname = \"Mark\"\nproperty = [ {name=\"label\", kind=\"text\"} ]\n";

// Whether a run came to this status and line, and held no session.
fn says(held: (Left, MemSink), status: u8, line: &str) -> bool {
    let (left, out) = held;
    end_of(&left) == (status, None) && out.bytes() == line.as_bytes()
}

// Whether a run on the files of two marks with this schema comes to a status and a line.
fn says_of_two<R: Threads + Wait + Sync>(
    rt: &R,
    alloc: Global,
    schema: &str,
    status: u8,
    line: &str,
) -> Mem<bool> {
    let ready = make_ready(alloc, TALK, schema, "", &[], 1_000)?;
    Ok(match go_all(rt, alloc, &[TWO])? {
        Some(disks) => says(hold(rt, alloc, ready, disks), status, line),
        None => false,
    })
}

#[test]
fn a_journal_of_another_schema_is_refused(rt: HostRuntime) -> Result<(), Fail> {
    let alloc = rt.alloc();
    assert_eq!(rt;
        says_of_two(&rt, alloc, OTHER_SCHEMA, 6, "wfsd: not of this schema: 0\n"),
        Ok(true)
    );
    assert_eq!(rt;
        says_of_two(&rt, alloc, "=", 3, "wfsd: schema refused: NotToml\n"),
        Ok(true)
    );
    Ok(())
}

// Whether a session over a schema of one byte, behind which its source fails, comes to this status and line.
fn says_unread<R: Threads + Wait + Sync>(
    rt: &R,
    alloc: Global,
    status: u8,
    line: &str,
) -> Mem<bool> {
    let ready = make_ready_failing(alloc, TALK, "=", &[1], 1_000)?;
    let disks = empty(alloc)?;
    Ok(says(hold(rt, alloc, ready, disks), status, line))
}

#[test]
fn a_schema_is_judged_behind_its_end(rt: HostRuntime) {
    assert_eq!(rt;
        says_unread(&rt, rt.alloc(), 4, "wfsd: cannot read\n"),
        Ok(true)
    );
}

// Words, and the end and the front of a line that there are where the output has room for three bytes.
static CUT_OFF: [(&[&str], End, &str); 3] = [
    (&["check", "d"], (7, None), "typ"),
    (&["compact", "d"], (7, Some(0)), "sid"),
    // the status of a refusal stays
    (&["talk"], (2, None), "wfs"),
];

fn is_cut_off<R: Threads + Wait + Sync>(
    rt: &R,
    alloc: Global,
    row: &(&[&str], End, &str),
) -> Mem<bool> {
    let (end, out) = run(rt, alloc, row.0, SCHEMA, "", &[], 3)?;
    Ok(end == row.1 && out.bytes() == row.2.as_bytes())
}

// The first row of `CUT_OFF` of which something else comes.
fn cut_off_otherwise<R: Threads + Wait + Sync>(rt: &R, alloc: Global) -> Mem<Option<usize>> {
    for i in 0..CUT_OFF.len() {
        if !is_cut_off(rt, alloc, &CUT_OFF[i])? {
            return Ok(Some(i));
        }
    }
    Ok(None)
}

#[test]
fn a_line_that_fails_has_its_status(rt: HostRuntime) {
    assert_eq!(rt; cut_off_otherwise(&rt, rt.alloc()), Ok(None));
}
