//! Ends, buffers, texts, lists, boxes and clocks, with ample memory, and the real ends against real files.

use std::fs;
use std::test::Fail;
use wfs_ends::{
    Boxed, Buffer, Buffered, Clock, CountingSink, InputFile, Joined, List, ListClock, MemLink,
    MemSink, MemSource, ReadEnd, RealClock, Sink, Source, StandardInput, StandardOutput, Text,
    WriteEnd, WriteFault, put_all, put_on,
};

#[test]
fn a_sink_in_memory_gives_what_fits_and_fails_where_it_is_told(
    rt: HostRuntime,
) -> Result<(), Fail> {
    let alloc = rt.alloc();
    let mut sink = MemSink::new(alloc, 5, vec![in alloc; 1]?)?;
    assert_eq!(rt; put_all(&mut sink, b"abc"), Ok(()));
    assert_eq!(rt; put_all(&mut sink, b"d"), Err(WriteFault));
    assert_eq!(rt; put_all(&mut sink, b"defg"), Err(WriteFault));
    assert_eq!(rt; sink.bytes(), b"abcde".as_slice());
    assert!(rt; put_on(&mut sink, true, b"x"));
    Ok(())
}

#[test]
fn a_counting_sink_counts_the_bytes_of_all_puts(rt: HostRuntime) -> Result<(), Fail> {
    let mut counter = CountingSink::new();
    assert_eq!(rt; put_all(&mut counter, b"abc"), Ok(()));
    assert_eq!(rt; put_all(&mut counter, b""), Ok(()));
    assert!(rt; !put_on(&mut counter, false, b"de"));
    assert_eq!(rt; counter.count(), 5);
    Ok(())
}

#[test]
fn a_source_whose_take_failed_gives_at_the_next_what_was_due(rt: HostRuntime) -> Result<(), Fail> {
    let alloc = rt.alloc();
    let mut source = MemSource::new(vec![in alloc; b'a', b'b', b'c']?, vec![in alloc; 0]?);
    let mut into = [0u8; 2];
    assert!(rt; source.take(&mut into).is_err());
    assert_eq!(rt; source.take(&mut into), Ok(2));
    assert_eq!(rt; into.as_slice(), b"ab".as_slice());
    Ok(())
}

// Whether two bytes go out of a source, which then fails, and two into a sink.
fn moves_both_ways(source: &mut MemSource, sink: &mut MemSink) -> bool {
    let mut joined = Joined { source, sink };
    let mut into = [0u8; 2];
    let taken = joined.take(&mut into) == Ok(2) && joined.take(&mut into).is_err();
    let put = put_all(&mut joined, b"xy") == Ok(());
    taken && put && into.as_slice() == b"ab".as_slice()
}

#[test]
fn a_joined_link_moves_the_bytes_of_its_halves(rt: HostRuntime) -> Result<(), Fail> {
    let alloc = rt.alloc();
    let mut source = MemSource::new(vec![in alloc; b'a', b'b', b'c']?, vec![in alloc; 1]?);
    let mut sink = MemSink::new(alloc, 10, Vec::new(alloc))?;
    assert!(rt; moves_both_ways(&mut source, &mut sink));
    assert_eq!(rt; sink.bytes(), b"xy".as_slice());
    Ok(())
}

#[test]
fn a_link_in_memory_moves_its_bytes(rt: HostRuntime) -> Result<(), Fail> {
    let alloc = rt.alloc();
    let bytes = vec![in alloc; b'q']?;
    let mut link = MemLink::new(alloc, bytes, 3, Vec::new(alloc), Vec::new(alloc))?;
    let mut into = [0u8; 2];
    assert_eq!(rt; link.take(&mut into), Ok(1));
    assert_eq!(rt; put_all(&mut link, b"mno"), Ok(()));
    assert_eq!(rt; link.written(), b"mno".as_slice());
    Ok(())
}

#[test]
fn a_buffer_makes_one_put_of_many_and_passes_a_long_piece_on(rt: HostRuntime) -> Result<(), Fail> {
    let alloc = rt.alloc();
    let mut buffer = Buffer::new(alloc)?;
    let mut sink = MemSink::new(alloc, 70_010, vec![in alloc; 3]?)?;
    let mut buffered = Buffered {
        sink: &mut sink,
        buffer: &mut buffer,
    };
    assert_eq!(rt; put_all(&mut buffered, b"head "), Ok(()));
    let given = put_all(&mut buffered, b"body");
    assert_eq!(rt; buffer.finish(&mut sink, given), Ok(()));
    assert_eq!(rt; sink.bytes(), b"head body".as_slice());
    let long = vec![in alloc; b'x'; 70_000]?;
    let mut buffered = Buffered {
        sink: &mut sink,
        buffer: &mut buffer,
    };
    // what is held goes before it
    assert_eq!(rt; put_all(&mut buffered, b"z"), Ok(()));
    assert_eq!(rt; put_all(&mut buffered, &long), Ok(()));
    let given = put_all(&mut buffered, b"y");
    assert_eq!(rt; sink.bytes().len(), 70_010);
    assert_eq!(rt; &sink.bytes()[8..11], b"yzx".as_slice());
    assert_eq!(rt; buffer.finish(&mut sink, given), Err(WriteFault));
    buffer.clear();
    assert_eq!(rt; buffer.finish(&mut sink, Ok(())), Ok(()));
    Ok(())
}

#[test]
fn texts_copy_as_they_are(rt: HostRuntime) -> Result<(), Fail> {
    let alloc = rt.alloc();
    let text = Text::of(alloc, "Straße")?;
    assert_eq!(rt; text.copy(alloc)?.as_str(), "Straße");
    assert_eq!(rt;
        Text::of_string(String::from_str(alloc, "Mark")?)?.as_str(),
        "Mark"
    );
    Ok(())
}

#[test]
fn texts_of_fourteen_and_of_fifteen_bytes_are_told_apart(rt: HostRuntime) -> Result<(), Fail> {
    let alloc = rt.alloc();
    let shorter = Text::of(alloc, "Grenzstein 123")?;
    let longer = Text::of_string(String::from_str(alloc, "Grenzstein 1234")?)?;
    assert_eq!(rt; shorter.copy(alloc)?.as_str(), "Grenzstein 123");
    assert_eq!(rt; longer.copy(alloc)?.as_str(), "Grenzstein 1234");
    assert!(rt; shorter != longer);
    assert!(rt; Text::of(alloc, "")? == Text::of_string(String::new(alloc))?);
    Ok(())
}

#[test]
fn lists_and_boxes_hold_their_items(rt: HostRuntime) -> Result<(), Fail> {
    let alloc = rt.alloc();
    let list = List::of(vec![in alloc; 3u8, 4]?);
    assert_eq!(rt; list.items(), [3, 4].as_slice());
    assert_eq!(rt; list.into_items().as_slice(), [3, 4].as_slice());
    assert_eq!(rt; *Boxed::new(alloc, 7u8)?.item(), 7);
    assert_eq!(rt; Boxed::new(alloc, 8u8)?.into_item(), 8);
    Ok(())
}

#[test]
fn a_clock_and_its_twin_go_on_alike(rt: HostRuntime) -> Result<(), Fail> {
    let alloc = rt.alloc();
    let mut clock = ListClock::new(vec![in alloc; 5u64, 9]?);
    assert_eq!(rt; clock.now(), 5);
    let mut twin = clock.twin(alloc)?;
    assert_eq!(rt; twin.now(), 9);
    assert_eq!(rt; twin.now(), 9);
    assert_eq!(rt; clock.now(), 9);
    Ok(())
}

#[test]
fn a_real_file_is_read_and_one_that_is_not_there_fails(rt: HostRuntime) -> Result<(), Fail> {
    let alloc = rt.alloc();
    fs::write(&rt, "marks.txt", "two marks")?;
    let mut file = ReadEnd::of(InputFile::of(&rt, Text::of(alloc, "marks.txt")?));
    let mut into = [0u8; 16];
    assert_eq!(rt; file.take(&mut into), Ok(9));
    assert_eq!(rt; &into[..9], b"two marks".as_slice());
    assert_eq!(rt; file.take(&mut into), Ok(0));
    let mut absent = ReadEnd::of(InputFile::of(&rt, Text::of(alloc, "absent.txt")?));
    assert!(rt; absent.take(&mut into).is_err());
    Ok(())
}

#[test]
fn the_standard_ends_and_the_clock_of_the_machine_answer(rt: HostRuntime) -> Result<(), Fail> {
    let mut into = [0u8; 4];
    let mut input = ReadEnd::of(StandardInput::of(&rt));
    assert!(rt; input.take(&mut into).is_ok());
    let mut out = WriteEnd::of(StandardOutput::of(&rt));
    assert_eq!(rt; put_all(&mut out, b"out\n"), Ok(()));
    let mut clock = RealClock::of(&rt);
    assert!(rt; clock.now() > 1_700_000_000);
    let mut twin = clock.twin(rt.alloc())?;
    assert!(rt; twin.now() > 1_700_000_000);
    Ok(())
}
