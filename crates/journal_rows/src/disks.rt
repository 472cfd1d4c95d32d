//! What calls on disks do, where they fail, and what crashes leave.

ghost use Rattle.std.specs.Prelude.{◌≡◌, ◌∷◌, [], IfOk, Some};

use disk_core::{Disk, FileDisk, MemDisk, write_and_sync};
use std::alloc::Global;
use std::fs;
use std::test::Fail;
use wfs_ends::{Failed, Mem, Text};

// A disk that holds `ab`, for ten calls and four bytes. Call 2 fails, and all from call 7 on.
fn small_disk(alloc: Global) -> Mem<MemDisk>
    ensures { IfOk result (λ m. m ≡ record {
      base = 97 ∷ 98 ∷ [];
      steps = [];
      made = 0;
      failed = 0;
      calls = 10;
      room = 4;
      failing = 2 ∷ [];
      stop = Some 7;
    }) }
{
    let mut bytes = Vec::new(alloc);
    bytes.extend_from_slice(b"ab")?;
    let mut failing = Vec::new(alloc);
    failing.push(2)?;
    MemDisk::new(alloc, bytes, 10, 4, failing, Some(7))
}

// `ab` is stable, `cd` is written behind it and then `x` over the first byte, and nothing is synced since.
#[test]
#[tactic(auto, unfolding(disk_core::specs::Story::read_after_all))]
fn a_crash_keeps_the_first_writes(rt: HostRuntime) -> Result<(), Fail> {
    for (keep, left) in [(0, "ab"), (1, "abcd"), (2, "xbcd"), (9, "xbcd")] {
        let mut disk = small_disk(rt.alloc())?;
        disk.write_framed(2, b"", b"c", b"d")?;
        disk.write_framed(0, b"x", b"", b"")?;
        let mut into = [0; 8];
        let mut crashed = disk.crash(keep);
        assert_eq!(rt; crashed.read(0, &mut into)?, left.len());
        assert!(rt; into.starts_with(left.as_bytes()));
    }
    Ok(())
}

// `c` is written, then `d`, which is synced, and then `x` over the first byte.
#[test]
#[tactic(auto, unfolding(disk_core::specs::Story::read_after_all))]
fn a_crash_keeps_what_was_synced(rt: HostRuntime) -> Result<(), Fail> {
    let mut disk = small_disk(rt.alloc())?;
    disk.write_at(2, b"c")?;
    assert_eq!(rt; disk.len()?, 3);
    // call 2 is listed
    assert!(rt; disk.len().is_err());
    write_and_sync(&mut disk, 3, b"d")?;
    disk.write_at(0, b"x")?;
    let mut into = [0; 8];
    let mut crashed = disk.crash(0);
    assert_eq!(rt; crashed.read(0, &mut into)?, 4);
    assert!(rt; into.starts_with(b"abcd"));
    Ok(())
}

// Call 2 is listed, the write of call 3 passes the room, call 7 is the stop; after a crash all calls up to the tenth
// are made again, and just the room that was left is there.
#[test]
#[tactic(auto, unfolding(disk_core::specs::Story::read_after_all))]
fn calls_fail_where_they_were_told_to(rt: HostRuntime) -> Result<(), Fail> {
    let mut disk = small_disk(rt.alloc())?;
    let mut answers = [true; 9];
    for answer in &mut answers {
        *answer = disk.len().is_ok();
    }
    assert_eq!(rt;
        answers,
        [true, true, false, true, true, true, true, false, false]
    );
    let mut crashed = disk.crash(0);
    assert_eq!(rt; crashed.write_at(0, b"12345"), Err(Failed));
    assert_eq!(rt; crashed.write_at(0, b"1234"), Ok(()));
    assert_eq!(rt; crashed.write_at(0, b"5"), Err(Failed));
    assert_eq!(rt; crashed.sync(), Ok(()));
    for _ in 0..6 {
        assert_eq!(rt; crashed.len(), Ok(4));
    }
    assert_eq!(rt; crashed.len(), Err(Failed));
    Ok(())
}

#[test]
fn a_file_is_written_cut_and_read(rt: HostRuntime) -> Result<(), Fail> {
    let name = "a_file_of_the_disk_tests";
    let mut disk = FileDisk::of(rt, Text::of(rt.alloc(), name)?);
    write_and_sync(&mut disk, 0, b"abcdef")?;
    disk.write_framed(1, b"b", b"x", b"y")?;
    disk.cut(5)?;
    disk.sync()?;
    assert_eq!(rt; disk.len()?, 5);
    let mut into = [0; 8];
    assert_eq!(rt; disk.read(1, &mut into)?, 4);
    assert_eq!(rt; into, *b"bxye\0\0\0\0");
    assert_eq!(rt; disk.read(5, &mut into)?, 0);
    fs::remove_file(&rt, name)?;
    let mut nowhere = FileDisk::of(rt, Text::of(rt.alloc(), "no/such/folder/file")?);
    assert_eq!(rt; nowhere.len(), Err(Failed));
    Ok(())
}

// What a file holds once its disk is gone, and meanwhile nobody else has it.
fn write_beside_another(rt: HostRuntime, name: &str) -> Result<bool, Fail> {
    let mut disk = FileDisk::of(rt, Text::of(rt.alloc(), name)?);
    write_and_sync(&mut disk, 0, b"abcdef")?;
    let mut second = FileDisk::of(rt, Text::of(rt.alloc(), name)?);
    let is_kept_out = second.len() == Err(Failed) && second.cut(0) == Err(Failed);
    Ok(is_kept_out)
}

#[test]
fn a_file_stays_and_is_one_disks_at_a_time(rt: HostRuntime) -> Result<(), Fail> {
    let name = "a_file_of_two_disks";
    assert!(rt; write_beside_another(rt, name)?);
    let mut later = FileDisk::of(rt, Text::of(rt.alloc(), name)?);
    let mut into = [0; 8];
    assert_eq!(rt; later.read(0, &mut into)?, 6);
    assert_eq!(rt; into, *b"abcdef\0\0");
    fs::remove_file(&rt, name)?;
    Ok(())
}

// A piece of which the system takes a part is written to its end, or the call fails. On ext4 a file ends at
// 17,592,186,040,320 bytes, so that the system takes three of these six; where files may be longer it takes all.
#[test]
fn a_piece_is_written_to_its_end_or_fails(rt: HostRuntime) -> Result<(), Fail> {
    let name = "a_file_as_long_as_may_be";
    let at = 17_592_186_040_317;
    let mut disk = FileDisk::of(rt, Text::of(rt.alloc(), name)?);
    let mut into = [0; 8];
    if disk.write_framed(at, b"ab", b"cd", b"ef").is_ok() {
        assert_eq!(rt; disk.read(at, &mut into)?, 6);
        assert_eq!(rt; into, *b"abcdef\0\0");
    }
    fs::remove_file(&rt, name)?;
    Ok(())
}

// The device is opened, as its length tells. It takes no byte, and cannot be synced.
#[test]
fn a_full_device_fails_at_writes_and_at_a_sync(rt: HostRuntime) -> Result<(), Fail> {
    let mut full = FileDisk::of(rt, Text::of(rt.alloc(), "/dev/full")?);
    assert_eq!(rt; full.len(), Ok(0));
    assert_eq!(rt; full.write_at(0, b"a"), Err(Failed));
    assert_eq!(rt; full.write_framed(0, b"a", b"b", b"c"), Err(Failed));
    assert_eq!(rt; full.sync(), Err(Failed));
    Ok(())
}
