//! Disks that fail and stop: nothing that was acknowledged is lost.

use disk_core::{Disk, MemDisk, Pair};
use program_samples::{
    Answer, COLLECTION, End, FEATURES, Left, Message, REPORT, REPORT_END, REPORT_LOCATOR,
    REPORT_TEXT, Ready, SCHEMA, answers_of, disk_with, empty, end_of, hold, make_ready,
    messages_of, text_of,
};
use std::alloc::Global;
use std::sync::Wait;
use std::test::Fail;
use std::thread::Threads;
use wfs_ends::{Mem, MemSink};

// The files of an empty folder, of which a call on side a fails, or all calls from a stop on.
fn failing(alloc: Global, failing: &[u64], stop: Option<u64>) -> Mem<Pair<MemDisk>> {
    Ok(Pair {
        a: disk_with(alloc, b"", failing, stop)?,
        b: disk_with(alloc, b"", &[], None)?,
    })
}

// A run of these words over these messages.
fn ready_for(alloc: Global, words: &[&str], messages: &[Message]) -> Mem<Ready> {
    let input = messages_of(alloc, messages)?;
    make_ready(alloc, words, SCHEMA, input.as_str(), &[], 20_000)
}

const ONE_MARK: Message = ("", "<m:Mark><m:label>A</m:label></m:Mark>");

const HITS: Message = (
    "GET /wfs?service=WFS&request=GetFeature&typeNames=m:Mark&resultType=hits HTTP/1.1\r\nHost: h\r\n\r\n",
    "",
);

const ONE: &str =
    "<?xml version=\"1.0\" encoding=\"UTF-8\"?><wfs:TransactionResponse xmlns:wfs=\"http://www.opengis.net/wfs/2.0\" xmlns:fes=\"http://www.opengis.net/fes/2.0\" version=\"2.0.2\"><wfs:TransactionSummary><wfs:totalInserted>1</wfs:totalInserted><wfs:totalUpdated>0</wfs:totalUpdated><wfs:totalReplaced>0</wfs:totalReplaced><wfs:totalDeleted>0</wfs:totalDeleted></wfs:TransactionSummary><wfs:InsertResults><wfs:Feature><fes:ResourceId rid=\"Mark.1\"/></wfs:Feature></wfs:InsertResults></wfs:TransactionResponse>";

static FAULT: Answer = (
    "500 Internal Server Error",
    "text/xml",
    "",
    &[
        REPORT,
        "NoApplicableCode",
        REPORT_LOCATOR,
        "store",
        REPORT_TEXT,
        "store fault",
        REPORT_END,
    ],
);

static NO_HITS: Answer = (
    "200 OK",
    FEATURES,
    "",
    &[COLLECTION, "0\" numberReturned=\"0\"/>"],
);

static ONE_INSERTED: Answer = ("200 OK", "text/xml", "", &[ONE]);

// Whether a session answers the first Insert by a store fault, and then as is wanted.
fn repairs(held: (Left, MemSink), wanted: &[u8]) -> Option<bool> {
    let (left, out) = held;
    if left.status == 0 && text_of(&out).starts_with("HTTP/1.1 500") {
        return Some(out.bytes() == wanted);
    }
    None
}

// Whether a session in which this call of side a's disk fails answers the first Insert by a store fault; then nothing is there,
// and the same Insert has the first number.
fn is_repaired<R: Threads + Wait + Sync>(rt: &R, alloc: Global, call: u64) -> Mem<Option<bool>> {
    let wanted = answers_of(alloc, &[FAULT, NO_HITS, ONE_INSERTED])?;
    let ready = ready_for(alloc, &["talk", "d"], &[ONE_MARK, HITS, ONE_MARK])?;
    let disks = failing(alloc, &[call], None)?;
    Ok(repairs(hold(rt, alloc, ready, disks), wanted.as_bytes()))
}

// How many of the calls make the first Insert a store fault, and whether each is repaired.
fn repaired<R: Threads + Wait + Sync>(rt: &R, alloc: Global) -> Mem<(u64, bool)> {
    let mut count: u64 = 0;
    let mut is_so = true;
    for call in 0..60 {
        if let Some(is_right) = is_repaired(rt, alloc, call)? {
            count = count.saturating_add(1);
            is_so = is_so && is_right;
        }
    }
    Ok((count, is_so))
}

#[test]
fn a_store_fault_leaves_nothing(rt: HostRuntime) -> Result<(), Fail> {
    // an append writes, syncs, writes its gate and syncs
    assert_eq!(rt; repaired(&rt, rt.alloc()), Ok((4, true)));
    Ok(())
}

// The disks after a crash that keeps so many of the writes in flight.
fn crashed(left: Left, keep: u32) -> Option<Pair<MemDisk>> {
    match left.disks {
        Some(Pair { a, b }) => Some(Pair {
            a: a.crash(keep),
            b: b.crash(keep),
        }),
        None => None,
    }
}

// The output of a run on these disks.
fn output_on<R: Threads + Wait + Sync>(
    rt: &R,
    alloc: Global,
    ready: Ready,
    disks: Option<Pair<MemDisk>>,
) -> Option<MemSink> {
    match disks {
        Some(disks) => {
            let (_, out) = hold(rt, alloc, ready, disks);
            Some(out)
        }
        None => None,
    }
}

// What the next run finds when side a's disk stopped at a call: whether the Insert was answered, and the line of a check.
fn next_run<R: Threads + Wait + Sync>(
    rt: &R,
    alloc: Global,
    stop: u64,
    keep: u32,
) -> Mem<(bool, Option<MemSink>)> {
    let insert = ready_for(alloc, &["talk", "d"], &[ONE_MARK])?;
    let check = ready_for(alloc, &["check", "d"], &[])?;
    let disks = failing(alloc, &[], Some(stop))?;
    let (left, out) = hold(rt, alloc, insert, disks);
    let is_answered = text_of(&out).starts_with("HTTP/1.1 200");
    Ok((
        is_answered,
        output_on(rt, alloc, check, crashed(left, keep)),
    ))
}

// Whether what was answered is there, and no more than was asked.
fn is_kept(is_answered: bool, line: &str) -> bool {
    line == "types 3 features 1 queries 0 openings 1\n"
        || !is_answered
            && (line.starts_with("types 3 features 0 ") || line.starts_with("types 3 features 1 "))
}

fn is_kept_after<R: Threads + Wait + Sync>(
    rt: &R,
    alloc: Global,
    stop: u64,
    keep: u32,
) -> Mem<bool> {
    let (is_answered, line) = next_run(rt, alloc, stop, keep)?;
    Ok(match line {
        Some(line) => is_kept(is_answered, text_of(&line)),
        None => false,
    })
}

// The first stop after which an answered Insert is not there, or more is there than was asked.
fn first_lost<R: Threads + Wait + Sync>(rt: &R, alloc: Global, keep: u32) -> Mem<Option<u64>> {
    for stop in 0..60 {
        if !is_kept_after(rt, alloc, stop, keep)? {
            return Ok(Some(stop));
        }
    }
    Ok(None)
}

#[test]
fn what_was_acknowledged_is_there(rt: HostRuntime) -> Result<(), Fail> {
    assert_eq!(rt;
        first_lost(&rt, rt.alloc(), 0),
        Ok(None),
        "no write is kept"
    );
    assert_eq!(rt;
        first_lost(&rt, rt.alloc(), 1),
        Ok(None),
        "one write is kept"
    );
    Ok(())
}

fn stop_where(is_here: bool, stop: u64) -> Option<u64> {
    if is_here { Some(stop) } else { None }
}

// What a file holds.
fn bytes_of(alloc: Global, disk: MemDisk) -> Mem<Vec<u8>> {
    let mut disk = disk;
    let mut into = [0; 400];
    match disk.read(0, &mut into) {
        Ok(n) if n <= 400 => Ok(Vec::from_slice(alloc, &into[..n])?),
        _ => Ok(Vec::new(alloc)),
    }
}

// What two files hold.
type Files = (Vec<u8>, Vec<u8>);

fn files_of(alloc: Global, disks: Option<Pair<MemDisk>>) -> Mem<Files> {
    match disks {
        Some(Pair { a, b }) => {
            let a = bytes_of(alloc, a)?;
            Ok((a, bytes_of(alloc, b)?))
        }
        None => Ok((Vec::new(alloc), Vec::new(alloc))),
    }
}

// The files that a session leaves which inserts one mark.
fn with_one_mark<R: Threads + Wait + Sync>(rt: &R, alloc: Global) -> Mem<Files> {
    let insert = ready_for(alloc, &["talk", "d"], &[ONE_MARK])?;
    let disks = empty(alloc)?;
    let (left, _) = hold(rt, alloc, insert, disks);
    files_of(alloc, left.disks)
}

// Disks that hold these files, of which one stops at a call.
fn stopping(alloc: Global, files: &Files, second: bool, stop: u64) -> Mem<Pair<MemDisk>> {
    Ok(Pair {
        a: disk_with(alloc, &files.0, &[], stop_where(!second, stop))?,
        b: disk_with(alloc, &files.1, &[], stop_where(second, stop))?,
    })
}

// The line of a check behind a compact that stopped at a call of one side's disk.
fn check_behind_a_stop<R: Threads + Wait + Sync>(
    rt: &R,
    alloc: Global,
    second: bool,
    stop: u64,
) -> Mem<Option<MemSink>> {
    let compact = ready_for(alloc, &["compact", "d"], &[])?;
    let check = ready_for(alloc, &["check", "d"], &[])?;
    let files = with_one_mark(rt, alloc)?;
    let disks = stopping(alloc, &files, second, stop)?;
    let (left, _) = hold(rt, alloc, compact, disks);
    Ok(output_on(rt, alloc, check, crashed(left, 0)))
}

// The first stop of a compact behind which the mark is not there.
fn first_lost_by_compact<R: Threads + Wait + Sync>(
    rt: &R,
    alloc: Global,
    second: bool,
) -> Mem<Option<u64>> {
    for stop in 0..40 {
        match check_behind_a_stop(rt, alloc, second, stop)? {
            Some(line) if text_of(&line).starts_with("types 3 features 1 queries 0 openings ") => {}
            _ => return Ok(Some(stop)),
        }
    }
    Ok(None)
}

#[test]
fn a_stop_of_a_compact_loses_nothing(rt: HostRuntime) -> Result<(), Fail> {
    assert_eq!(rt;
        first_lost_by_compact(&rt, rt.alloc(), false),
        Ok(None),
        "side a"
    );
    assert_eq!(rt;
        first_lost_by_compact(&rt, rt.alloc(), true),
        Ok(None),
        "side b"
    );
    Ok(())
}

// ---- statuses

// Words; side a, of which the listed calls fail; from which call on all of side b's fail; and the end and the line that
// there are then. Side b is empty at first.
type Ending = (
    &'static [&'static str],
    &'static [u8],
    &'static [u64],
    Option<u64>,
    End,
    &'static str,
);

// The first opening, and Mark.1 with the label A.
const ONE_MARK_FILE: &[u8] =
    b"\x01WFSJNL\x01\0\0\0\0\0\0\0\x01\x01\0\0\0f\x01\0\0\0\0\0\0\0\x01\0\0\0YMark(label:text,size:integer,place:point);Field(name:text,area:polygon);Way(course:line);\x01\0\0\0\x1a\x02\0\0\0\x01\x01\0\0\0\0\0\0\0\0\0\x01\0\x03\x01\0\0\0\x01A\0\0\0";

const FAULT_LINE: &str = "wfsd: store fault\n";

// Call 0 is the first of a start or a look. Behind a start on files that hold something side b's call 2 is the first of a
// compaction, which reads byte 0 there; behind one on empty files side a's call 14 writes the record of the first step.
static FAULTS: [Ending; 5] = [
    (&["talk", "d"], b"", &[0], None, (5, None), FAULT_LINE),
    (&["check", "d"], b"", &[0], None, (5, None), FAULT_LINE),
    (&["compact", "d"], b"", &[0], None, (5, None), FAULT_LINE),
    (
        &["compact", "d"],
        ONE_MARK_FILE,
        &[],
        Some(2),
        (5, Some(0)),
        FAULT_LINE,
    ),
    (
        &["drill", "1", "d"],
        b"",
        &[14],
        None,
        (5, Some(0)),
        FAULT_LINE,
    ),
];

// The beginning of a checkpoint of the first opening: the first type has given all its numbers, 1,000,000,000,000.
const ALL_GIVEN: &[u8] =
    b"\x01WFSJNL\x01\0\0\0\0\0\0\0\x01\x01\0\0\0\x23\x05\0\0\0\0\0\0\0\x01\0\x03\0\0\0\xe8\xd4\xa5\x10\0\0\0\0\0\0\0\0\0\0\0\0\0\0\0\0\0\0";

// The beginning of a checkpoint of the last opening that may be.
const LAST: &[u8] =
    b"\x01WFSJNL\x01\0\0\0\0\0\0\0\x02\x01\0\0\0\x23\x05\0\0\0\xe8\xd4\xa5\x10\0\0\x03\0\0\0\0\0\0\0\0\0\0\0\0\0\0\0\0\0\0\0\0\0\0\0\0\0";

const FULL_LINE: &str = "wfsd: full\n";

static FULL: [Ending; 2] = [
    (
        &["drill", "1", "d"],
        ALL_GIVEN,
        &[],
        None,
        (11, Some(0)),
        FULL_LINE,
    ),
    (&["talk", "d"], LAST, &[], None, (11, None), FULL_LINE),
];

fn is_end(held: (Left, MemSink), end: End, line: &str) -> bool {
    let (left, out) = held;
    end_of(&left) == end && text_of(&out) == line
}

fn ends_so<R: Threads + Wait + Sync>(rt: &R, alloc: Global, row: &Ending) -> Mem<bool> {
    let ready = ready_for(alloc, row.0, &[])?;
    let a = disk_with(alloc, row.1, row.2, None)?;
    let b = disk_with(alloc, b"", &[], row.3)?;
    Ok(is_end(hold(rt, alloc, ready, Pair { a, b }), row.4, row.5))
}

// The first row of which something else comes.
fn ends_otherwise<R: Threads + Wait + Sync>(
    rt: &R,
    alloc: Global,
    rows: &[Ending],
) -> Mem<Option<usize>> {
    for (i, row) in rows.iter().enumerate() {
        if !ends_so(rt, alloc, row)? {
            return Ok(Some(i));
        }
    }
    Ok(None)
}

#[test]
fn a_disk_that_fails_has_its_status(rt: HostRuntime) {
    assert_eq!(rt; ends_otherwise(&rt, rt.alloc(), &FAULTS), Ok(None));
}

#[test]
fn no_room_has_its_status(rt: HostRuntime) -> Result<(), Fail> {
    assert_eq!(rt;
        (ONE_MARK_FILE.len(), ALL_GIVEN.len(), LAST.len()),
        (155, 57, 57)
    );
    assert_eq!(rt; ends_otherwise(&rt, rt.alloc(), &FULL), Ok(None));
    Ok(())
}
