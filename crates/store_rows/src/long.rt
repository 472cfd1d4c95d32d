//! A start on a side of 67,108,865 bytes, and of one byte less, in which the same fields are put again and again: what the store tells, and the
//! other side.

ghost use Rattle.feature_schema.specs.Rules.{KeepsRules};

use crate::pieces::joined;
use crate::requests::schema;
use crate::sides::{CLOSED, HEAD_1, HEAD_2, OPENING_1, OPENING_2};
use crate::starts::started;
use disk_core::{Disk, MemDisk, Pair};
use feature_values::Schema;
use std::alloc::Global;
use std::test::Fail;
use wfs_ends::Mem;
use wfs_store::Store;

// ---- pieces of a side

// What the record of a change begins with that puts 1,024 fields. A part has 4,115 bytes, so the body has 5 + 1,024 x 4,115 = 4,213,765
// (hexadecimal 404c05): 2, and how many parts there are in 4 bytes. The record has 4,213,770 bytes.
const ALL: &[u8] = b"\x01\0\x40\x4c\x05\x02\0\0\x04\0";

// The same with 949 fields, of which the last one's name has 1,142 letters: 5 + 948 x 4,115 + 1,161 = 3,902,186 (3b8aea). 3,902,191 bytes.
const LONGER: (&[u8], usize) = (b"\x01\0\x3b\x8a\xea\x02\0\0\x03\xb5", 1_142);

// And with a letter less (3b8ae9): 3,902,190 bytes.
const LONGEST_KEPT: (&[u8], usize) = (b"\x01\0\x3b\x8a\xe9\x02\0\0\x03\xb5", 1_141);

// The same with 1,000 fields, as a checkpoint has them: 5 + 1,000 x 4,115 = 4,115,005 (3eca3d). 4,115,010 bytes.
const THOUSAND: &[u8] = b"\x01\0\x3e\xca\x3d\x02\0\0\x03\xe8";

// The 24 that are left: 5 + 24 x 4,115 = 98,765 (181cd). 98,770 bytes.
const OTHERS: &[u8] = b"\x01\0\x01\x81\xcd\x02\0\0\0\x18";

// What a checkpoint behind the first opening begins with: 5, the number of the opening in 8 bytes, three types in 2, and 8 bytes for each:
// Field.1024 was the last number given, and none of the others. 40 bytes.
const BASE: &[u8] =
    b"\x01\0\0\0\x23\x05\0\0\0\0\0\0\0\x01\0\x03\0\0\0\0\0\0\0\0\0\0\0\0\0\0\x04\0\0\0\0\0\0\0\0\0";

// How many letters the longest name has.
const LONGEST: usize = 4_096;

// A part that puts a field of this name: 1, the type 1 in 2 bytes, its number in 8, two values in 2; a text, 1 and its length in 4 bytes,
// and null. 19 bytes and the name, 4,115 with the longest.
fn put_field(bytes: &mut Vec<u8>, number: u64, name: &[u8]) -> Mem<()> {
    bytes.extend_from_slice(b"\x01\0\x01")?;
    bytes.extend_from_slice(&number.to_be_bytes())?;
    bytes.extend_from_slice(b"\0\x02\x01")?;
    bytes.extend_from_slice(&u32::try_from(name.len()).unwrap_or(0).to_be_bytes())?;
    bytes.extend_from_slice(name)?;
    bytes.push(0)?;
    Ok(())
}

// The record that begins so, and puts the fields from one number up to, and without, another.
fn put_fields(bytes: &mut Vec<u8>, head: &[u8], from: u64, to: u64, name: &[u8]) -> Mem<()> {
    bytes.extend_from_slice(head)?;
    for number in from..to {
        put_field(bytes, number, name)?;
    }
    Ok(())
}

fn letters(alloc: Global, count: usize) -> Mem<Vec<u8>> {
    Ok(vec![in alloc; b'n'; count]?)
}

// ---- sides

// A record between others, which puts the fields up to one whose name has so many letters.
fn put_shorter(
    alloc: Global,
    bytes: &mut Vec<u8>,
    shorter: (&[u8], usize),
    name: &[u8],
) -> Mem<()> {
    put_fields(bytes, shorter.0, 1, 949, name)?;
    let last = letters(alloc, shorter.1)?;
    put_field(bytes, 949, &last)
}

// The first opening, and 15 times all fields, with that record behind the first time: 16 + 107 + 15 x 4,213,770 + 1 = 63,206,674 bytes and
// the record.
fn long_side(alloc: Global, shorter: (&[u8], usize)) -> Mem<Vec<u8>> {
    let name = letters(alloc, LONGEST)?;
    let mut record = Vec::new(alloc);
    put_fields(&mut record, ALL, 1, 1_025, &name)?;
    let mut bytes = joined(alloc, &[HEAD_1, OPENING_1, &record])?;
    put_shorter(alloc, &mut bytes, shorter, &name)?;
    for _ in 0..14 {
        bytes.extend_from_slice(&record)?;
    }
    bytes.extend_from_slice(CLOSED)?;
    Ok(bytes)
}

// The checkpoint, and the second opening behind it: 16 + 40 + 4,115,010 + 98,770 + 107 + 1 = 4,213,944 bytes.
fn short_side(alloc: Global) -> Mem<Vec<u8>> {
    let name = letters(alloc, LONGEST)?;
    let mut bytes = joined(alloc, &[HEAD_2, BASE])?;
    put_fields(&mut bytes, THOUSAND, 1, 1_001, &name)?;
    put_fields(&mut bytes, OTHERS, 1_001, 1_025, &name)?;
    bytes.extend_from_slice(OPENING_2)?;
    bytes.extend_from_slice(CLOSED)?;
    Ok(bytes)
}

fn disk(alloc: Global, bytes: Vec<u8>) -> Mem<MemDisk> {
    MemDisk::new(alloc, bytes, 5_000, 5_000_000, Vec::new(alloc), None)
}

fn disks(alloc: Global, shorter: (&[u8], usize)) -> Mem<Pair<MemDisk>> {
    Ok(Pair {
        a: disk(alloc, long_side(alloc, shorter)?)?,
        b: disk(alloc, Vec::new(alloc))?,
    })
}

// ---- the start

// How long the side is, how many features there are, and the number of the opening.
fn told_by<D: Disk>(store: &Store<D>) -> (u64, u64, u64) {
    let features = store.features();
    (store.side_length(), features.count(), features.openings())
}

// Whether a disk reads just so, where there is room for one byte more.
fn reads<D: Disk>(disk: &mut D, want: &[u8], into: &mut [u8]) -> bool {
    match disk.read(0, into) {
        Ok(n) => n < into.len() && &into[..n] == want,
        Err(_) => false,
    }
}

fn is_short<D: Disk + Drop>(store: Store<D>, want: &[u8], into: &mut [u8]) -> bool {
    let told = told_by(&store);
    let mut disks = store.close();
    told == (4_213_944, 1_024, 2) && want.len() == 4_213_944 && reads(&mut disks.b, want, into)
}

fn starts_short(alloc: Global, schema: &Schema, want: &[u8], into: &mut [u8]) -> Mem<bool>
    requires { KeepsRules schema.now }
{
    match started(alloc, disks(alloc, LONGER)?, schema, 9) {
        Ok(store) => Ok(is_short(store, want, into)),
        Err(_) => Ok(false),
    }
}

fn is_made_shorter(alloc: Global) -> Mem<bool> {
    let schema = schema(alloc)?;
    let want = short_side(alloc)?;
    let mut into = vec![in alloc; 0; 4_213_945]?;
    starts_short(alloc, &schema, &want, &mut into)
}

// Whether the side is the same with the second opening behind it, of 107 bytes, and the other one has none.
fn is_kept<D: Disk + Drop>(store: Store<D>) -> bool {
    let told = told_by(&store);
    let mut disks = store.close();
    told == (67_108_971, 1_024, 2) && disks.b.len() == Ok(0)
}

fn starts_long(alloc: Global, schema: &Schema) -> Mem<bool>
    requires { KeepsRules schema.now }
{
    match started(alloc, disks(alloc, LONGEST_KEPT)?, schema, 9) {
        Ok(store) => Ok(is_kept(store)),
        Err(_) => Ok(false),
    }
}

fn is_kept_as_it_is(alloc: Global) -> Mem<bool> {
    let schema = schema(alloc)?;
    starts_long(alloc, &schema)
}

#[test]
fn the_longest_side_that_is_kept(rt: HostRuntime) -> Result<(), Fail> {
    assert_eq!(rt; is_kept_as_it_is(rt.alloc()), Ok(true));
    Ok(())
}

#[test]
fn a_long_side_is_made_shorter_at_the_start(rt: HostRuntime) -> Result<(), Fail> {
    assert_eq!(rt; is_made_shorter(rt.alloc()), Ok(true));
    Ok(())
}
