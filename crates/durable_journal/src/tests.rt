//! The files of a journal after each call, byte by byte, and what is left of them where a call fails.

ghost use Rattle.std.specs.Prelude.{◌≡◌, ◌≤◌, List, ℕ, Option, None, IfOk, IfSome};
ghost use Rattle.feature_schema.specs.Rules.{KeepsRules};
ghost use Rattle.feature_journal.specs.Kept.{greatest_side, limit_of};
ghost use Rattle.feature_values.specs.declared.schema.Schema.{Schema};
ghost use Rattle.wfs_model.specs.declared.change.Change.{Change};
ghost use Rattle.wfs_model.specs.State.{Durable};
ghost use Rattle.durable_journal.specs.Kept.{IsAtRest, Keeps};
ghost use Rattle.durable_journal.specs.Opened.{IsOpened};

use super::*;
use checkpoints::CompactFault;
use disk_core::{Disk, MemDisk, Pair};
use feature_journal::Journal;
use feature_schema::read_schema;
use feature_values::Schema;
use std::alloc::Global;
use std::test::Fail;
use wfs_ends::{Mem, OutOfMemory};

mod files;

use files::{
    ADDS, AGAIN, Add, CHANGE, INSERTED, LOOKS, Look, MARKS, OPENED, ROWS, Row, SHORT, STOPS, Stop,
};

fn schema(alloc: Global) -> Mem<Schema>
    ensures { IfOk result KeepsRules }
{
    match read_schema(alloc, MARKS.as_bytes()) {
        Ok(schema) => Ok(schema),
        Err(_) => Err(OutOfMemory),
    }
}

fn disk_of(alloc: Global, text: &[u8], stop: Option<u64>) -> Mem<MemDisk> {
    let mut bytes = Vec::new(alloc);
    bytes.extend_from_slice(text)?;
    MemDisk::new(alloc, bytes, 60, 600, Vec::new(alloc), stop)
}

fn disks_of(alloc: Global, a: &[u8], b: &[u8], stop: Option<u64>) -> Mem<Pair<MemDisk>> {
    Ok(Pair {
        a: disk_of(alloc, a, stop)?,
        b: disk_of(alloc, b, None)?,
    })
}

// Whether a disk reads just so.
fn reads(disk: &mut MemDisk, want: &[u8]) -> bool {
    let mut into = [0; 400];
    match disk.read(0, &mut into) {
        Ok(n) => n <= 400 && &into[..n] == want,
        Err(_) => false,
    }
}

fn read_so(disks: Pair<MemDisk>, a: &[u8], b: &[u8]) -> bool {
    let mut disks = disks;
    reads(&mut disks.a, a) && reads(&mut disks.b, b)
}

// ---- opening

// The number of the opening, or the refusal, and the disks.
fn open_on<D: Disk + Drop>(
    alloc: Global,
    disks: Pair<D>,
    schema: &Schema,
    limit: u64,
) -> (Result<u64, OpenFault>, Pair<D>)
    requires rules { KeepsRules schema.now }
    requires limit { limit ≤ 1000 }
{
    match open_journal(alloc, disks, schema, limit) {
        Ok(opened) => {
            let Opened {
                journal,
                features,
                ..
            } = opened;
            (Ok(features.openings()), journal.into_disks())
        }
        Err((disks, fault)) => (Err(fault), disks),
    }
}

fn row_holds(alloc: Global, schema: &Schema, row: &Row) -> Mem<bool>
    requires { KeepsRules schema.now }
{
    let (a, limit, want, after) = row;
    if *limit > 1000 {
        return Ok(false);
    }
    let (answer, disks) = open_on(alloc, disks_of(alloc, a, b"", None)?, schema, *limit);
    Ok(answer == *want && read_so(disks, after, b""))
}

fn first_other(alloc: Global, schema: &Schema) -> Mem<Option<usize>>
    requires { KeepsRules schema.now }
{
    for (i, row) in ROWS.iter().enumerate() {
        if !row_holds(alloc, schema, row)? {
            return Ok(Some(i));
        }
    }
    Ok(None)
}

fn first_wrong(alloc: Global) -> Mem<Option<usize>> {
    let schema = schema(alloc)?;
    first_other(alloc, &schema)
}

// The first row that fails is None.
#[test]
fn journals_are_opened(rt: HostRuntime) -> Result<(), Fail> {
    assert_eq!(rt; first_wrong(rt.alloc())?, None);
    Ok(())
}

// Whether a crash that keeps so many writes leaves just these bytes.
fn leaves(disk: MemDisk, keep: u32, want: &[u8]) -> bool {
    let mut crashed = disk.crash(keep);
    reads(&mut crashed, want)
}

fn left_so(disks: Pair<MemDisk>, keep: u32, want: &[u8]) -> bool {
    let Pair { a, b: _b } = disks;
    leaves(a, keep, want)
}

fn stops_so(alloc: Global, schema: &Schema, stop: &Stop) -> Mem<bool>
    requires { KeepsRules schema.now }
{
    let (call, is_opened, keep, want) = stop;
    let (answer, disks) = open_on(
        alloc,
        disks_of(alloc, INSERTED, b"", Some(*call))?,
        schema,
        1000,
    );
    Ok(answer.is_ok() == *is_opened && left_so(disks, *keep, want))
}

fn first_stop(alloc: Global, schema: &Schema) -> Mem<Option<usize>>
    requires { KeepsRules schema.now }
{
    for (i, stop) in STOPS.iter().enumerate() {
        if !stops_so(alloc, schema, stop)? {
            return Ok(Some(i));
        }
    }
    Ok(None)
}

fn first_stopped(alloc: Global) -> Mem<Option<usize>> {
    let schema = schema(alloc)?;
    first_stop(alloc, &schema)
}

#[test]
fn each_call_may_fail(rt: HostRuntime) -> Result<(), Fail> {
    assert_eq!(rt; first_stopped(rt.alloc())?, None);
    Ok(())
}

// ---- changes

fn add<D: Disk>(journal: &mut Journal<D>, limit: u64) -> Option<Recorded>
    requires keeps { (schema : Schema) × (kept : Durable) × (begun : Option Change)
        × Keeps D.images schema kept begun journal.old }
    requires limit { limit_of journal.old ≡ limit }
{
    if journal.side_length().saturating_add(31) > limit {
        return None;
    }
    Some(record_change(journal, CHANGE))
}

// How a change is recorded behind an opening, and the disks.
fn add_on<D: Disk + Drop>(
    alloc: Global,
    disks: Pair<D>,
    schema: &Schema,
) -> (Option<Recorded>, Pair<D>)
    requires { KeepsRules schema.now }
{
    match open_journal(alloc, disks, schema, 1000) {
        Ok(opened) => {
            let mut journal = opened.journal;
            (add(&mut journal, 1000), journal.into_disks())
        }
        Err((disks, _)) => (None, disks),
    }
}

fn adds_so(alloc: Global, schema: &Schema, add: &Add) -> Mem<bool>
    requires { KeepsRules schema.now }
{
    let (call, recorded, keep, want) = add;
    let (answer, disks) = add_on(alloc, disks_of(alloc, OPENED, b"", *call)?, schema);
    Ok(answer == Some(*recorded) && left_so(disks, *keep, want))
}

fn first_add(alloc: Global, schema: &Schema) -> Mem<Option<usize>>
    requires { KeepsRules schema.now }
{
    for (i, add) in ADDS.iter().enumerate() {
        if !adds_so(alloc, schema, add)? {
            return Ok(Some(i));
        }
    }
    Ok(None)
}

fn first_added(alloc: Global) -> Mem<Option<usize>> {
    let schema = schema(alloc)?;
    first_add(alloc, &schema)
}

#[test]
fn changes_are_recorded(rt: HostRuntime) -> Result<(), Fail> {
    assert_eq!(rt; first_added(rt.alloc())?, None);
    Ok(())
}

// ---- checkpoints

// The answer, the generation and the disks.
fn shorten_on<D: Disk + Drop>(
    alloc: Global,
    disks: Pair<D>,
    schema: &Schema,
) -> (Option<Result<(), CompactFault>>, u64, Pair<D>)
    requires { KeepsRules schema.now }
{
    match open_journal(alloc, disks, schema, 1000) {
        Ok(opened) => {
            let mut journal = opened.journal;
            let answer = shorten(alloc, &mut journal, &opened.features);
            (Some(answer), journal.generation(), journal.into_disks())
        }
        Err((disks, _)) => (None, 0, disks),
    }
}

fn is_shorter(alloc: Global) -> Mem<bool> {
    let schema = schema(alloc)?;
    let (answer, generation, disks) = shorten_on(
        alloc,
        disks_of(alloc, INSERTED, b"", None)?,
        &schema,
    );
    Ok(answer == Some(Ok(())) && generation == 2 && read_so(disks, AGAIN, SHORT))
}

#[test]
fn a_journal_is_made_shorter(rt: HostRuntime) -> Result<(), Fail> {
    assert_eq!(rt; is_shorter(rt.alloc())?, true);
    Ok(())
}

// ---- looks

fn looks_so(alloc: Global, schema: &Schema, look: &Look) -> Mem<bool> {
    let (a, want) = look;
    let mut disks = disks_of(alloc, a, b"", None)?;
    Ok(look_at_journal(alloc, &mut disks, schema, 1000) == *want)
}

fn first_look(alloc: Global, schema: &Schema) -> Mem<Option<usize>> {
    for (i, look) in LOOKS.iter().enumerate() {
        if !looks_so(alloc, schema, look)? {
            return Ok(Some(i));
        }
    }
    Ok(None)
}

fn first_looked(alloc: Global) -> Mem<Option<usize>> {
    let schema = schema(alloc)?;
    first_look(alloc, &schema)
}

#[test]
fn journals_are_looked_at(rt: HostRuntime) -> Result<(), Fail> {
    assert_eq!(rt; first_looked(rt.alloc())?, None);
    Ok(())
}
