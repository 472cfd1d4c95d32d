//! Acceptors and doors in memory, and the doors over TCP on the machine itself.

ghost use Rattle.std.specs.Prelude.{IfOk};
ghost use Rattle.service_doors.specs.Memory.{IsNewRow};

use crate::tcp::set_up;
use crate::{Acceptor, DoorFault, Doors, MemAcceptor, MemDoors, TcpDoors};
use std::alloc::Global;
use std::io;
use std::io::Write;
use std::net::{SocketAddr, TcpStream};
use std::test::Fail;
use std::time::Duration;
use wfs_ends::{Failed, Mem, MemLink, Source, put_all};

// Writes onto the next link what a first read of it gives, and finishes it. It answers how many bytes that is.
fn echo<A: Acceptor>(acceptor: &mut A) -> Result<usize, Failed> {
    match acceptor.accept()? {
        Some(mut link) => {
            let mut into = [0u8; 8];
            let taken = link.take(&mut into);
            let size = taken.unwrap_or(0);
            let given = put_all(&mut link, &into[..size]);
            acceptor.finish(link);
            if given.is_ok() { taken } else { Err(Failed) }
        }
        None => Ok(0),
    }
}

// A link that gives one byte and keeps up to four.
fn link_of(alloc: Global, byte: u8) -> Mem<MemLink> {
    MemLink::new(
        alloc,
        vec![in alloc; byte]?,
        4,
        Vec::new(alloc),
        Vec::new(alloc),
    )
}

// Two links, and a second call that fails.
fn two_links(alloc: Global) -> Mem<MemAcceptor>
    ensures { IfOk result IsNewRow }
{
    let links = vec![in alloc; link_of(alloc, b'a')?, link_of(alloc, b'b')?]?;
    Ok(MemAcceptor::new(links, vec![in alloc; 1u64]?))
}

// What the links were given, one after the other.
fn written(alloc: Global, links: &[MemLink]) -> Mem<Vec<u8>> {
    let mut all = Vec::new(alloc);
    for link in links {
        all.extend_from_slice(link.written())?;
        all.push(b' ')?;
    }
    Ok(all)
}

#[test]
fn an_acceptor_in_memory_puts_finished_links_back(rt: HostRuntime) -> Result<(), Fail> {
    let mut acceptor = two_links(rt.alloc())?;
    for want in [Ok(1), Err(Failed), Ok(1), Ok(0)] {
        assert_eq!(rt; echo(&mut acceptor), want);
    }
    let all = written(rt.alloc(), acceptor.links())?;
    assert_eq!(rt; all.as_slice(), b"a b ".as_slice());
    Ok(())
}

// How many acceptors the doors give to so many workers, and how many links these have.
fn listen(doors: &mut MemDoors, alloc: Global, workers: u32) -> Result<(usize, usize), DoorFault> {
    let acceptors = doors.listen(alloc, "127.0.0.1:0", workers)?;
    let mut links = Vec::new(alloc);
    for acceptor in &acceptors {
        links.extend_from_slice(&written(alloc, acceptor.links())?)?;
    }
    Ok((acceptors.len(), links.len()))
}

#[test]
fn doors_in_memory_give_their_acceptors_and_then_empty_ones(rt: HostRuntime) -> Result<(), Fail> {
    let acceptors = vec![in rt.alloc(); two_links(rt.alloc())?]?;
    let failing = vec![in rt.alloc(); 0u64]?;
    let mut doors = MemDoors::new(rt.alloc(), acceptors, failing);
    for (workers, want) in [
        (3, Err(DoorFault::Failed)),
        (3, Ok((3, 2))),
        (1, Ok((1, 0))),
    ] {
        assert_eq!(rt; listen(&mut doors, rt.alloc(), workers), want);
    }
    assert_eq!(rt; doors.asked().len(), 2);
    Ok(())
}

// Asks at an address, and hears what is answered to its end, while the acceptor serves one connection.
fn ask<A: Acceptor>(rt: &HostRuntime, at: SocketAddr, acceptor: &mut A) -> io::Result<String> {
    let mut client = TcpStream::connect(rt, at)?;
    client.write_all(b"ask")?;
    let _size = echo(acceptor);
    io::read_to_string(rt.alloc(), client)
}

// How long reads and writes of a connection that was set up wait, and whether it sends what is written at once.
fn limits(
    rt: &HostRuntime,
    at: SocketAddr,
) -> io::Result<(Option<Duration>, Option<Duration>, bool)> {
    let client = TcpStream::connect(rt, at)?;
    set_up(&client)?;
    Ok((
        client.read_timeout()?,
        client.write_timeout()?,
        client.nodelay()?,
    ))
}

// What goes to a thread of its own.
fn moves<T: Send + Drop>(_value: T) {}

#[test]
fn doors_over_tcp_give_two_workers_one_port(rt: HostRuntime) -> Result<(), Fail> {
    let mut doors = TcpDoors::of(&rt);
    let mut acceptors = doors.listen(rt.alloc(), "127.0.0.1:0", 2)?;
    for acceptor in acceptors.iter_mut() {
        let at = acceptor.local_addr()?;
        assert_eq!(rt; ask(&rt, at, acceptor)?.as_str(), "ask");
    }
    let (read, write) = (Duration::from_secs(300), Duration::from_secs(30));
    let at = acceptors[0].local_addr()?;
    assert_eq!(rt; limits(&rt, at)?, (Some(read), Some(write), true));
    moves(acceptors);
    assert!(rt; doors.listen(rt.alloc(), "no address", 1).is_err());
    Ok(())
}
