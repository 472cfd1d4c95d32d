//! A disk over a file of the system.

ghost use Rattle.std.specs.Prelude.{◌≡◌, ◌≤◌, drop, length, IfOk, IsTrue, IsErr, OnErr, Ok, None};
ghost use Rattle.wfs_ends.specs.Ends.{Rose};
ghost use Rattle.disk_core.specs.Disk.{joined};

use crate::Disk;
use std::fs::File;
use std::io;
use std::io::{ErrorKind, IoSlice, Seek, SeekFrom};
use std::os::unix::fs::FileExt;
use std::path::Path;
use std::rt::Files;
use wfs_ends::{Failed, Text};

/// A file of the system. It is opened at first use, made where it is not there, and locked for as long as the value
/// lives. Where another disk has the file open, in this process or another, each call fails, and does nothing.
///
/// It does not tell what it holds, so nothing is proved of what a crash leaves of it. What is assumed of the system is
/// that the model of `Disk` holds of it. Once a sync has failed, each later one fails too, since a system may then
/// count as written what never reached the disk.
#[derive(Drop)]
pub struct FileDisk<R> {
    files: R,
    path: Text,
    file: Option<File>,
    is_lost: bool,
    faults: u64,
}

// Syncs the folder of a file, so that a new file's name stays.
fn sync_folder<R: Files<File = File>>(files: &R, path: &str) -> io::Result<()> {
    let folder = match Path::new(path).parent() {
        Some(parent) if !parent.as_str().is_empty() => parent.as_str(),
        _ => ".",
    };
    File::open(files, folder)?.sync_all()
}

// Opens the file for one disk alone. A file that is locked is another's.
fn open_file<R: Files<File = File>>(files: &R, path: &str) -> io::Result<File> {
    let file = File::options()
        .read(true)
        .write(true)
        .create(true)
        .open(files, path)?;
    if file.try_lock().is_err() {
        return Err(ErrorKind::WouldBlock.into());
    }
    sync_folder(files, path)?;
    Ok(file)
}

// Reads until the buffer is full or the file ends.
fn read_full(file: &File, at: u64, into: &mut [u8]) -> io::Result<usize>
    ensures { IfOk result (λ n. n ≤ length into.old) }
{
    let mut done = 0;
    for _ in 0..u64::MAX {
        if done >= into.len() {
            break;
        }
        match file.read_at(&mut into[done..], at.saturating_add(done as u64)) {
            Ok(0) => break,
            Ok(n) => done += n,
            Err(e) if e.kind() == ErrorKind::Interrupted => {}
            Err(e) => return Err(e),
        }
    }
    Ok(done)
}

// What is left of a piece, where so many bytes were written of it and of what stands behind it.
fn rest_of(piece: &[u8], written: usize) -> &[u8]
    ensures { result.now ≡ drop written piece.now }
{
    &piece[written.min(piece.len())..]
}

// What is left of three pieces that stand one behind the other, where so many bytes of them were written.
fn left_of<'a>(
    head: &'a [u8],
    body: &'a [u8],
    tail: &'a [u8],
    written: usize,
) -> (&'a [u8], &'a [u8], &'a [u8])
    ensures { joined result.0.now result.1.now result.2.now
        ≡ drop written (joined head.now body.now tail.now) }
{
    let behind_head = written.saturating_sub(head.len());
    let behind_body = behind_head.saturating_sub(body.len());
    (
        rest_of(head, written),
        rest_of(body, behind_head),
        rest_of(tail, behind_body),
    )
}

// Writes three pieces one behind the other. The system takes them in one call, or what it leaves goes after them.
fn write_pieces(file: &File, at: u64, head: &[u8], body: &[u8], tail: &[u8]) -> io::Result<()> {
    let mut from = file;
    from.seek(SeekFrom::Start(at))?;
    let pieces = [IoSlice::new(head), IoSlice::new(body), IoSlice::new(tail)];
    let written = match file.write_vectored(&pieces) {
        Ok(n) => n,
        Err(e) if e.kind() == ErrorKind::Interrupted => 0,
        Err(e) => return Err(e),
    };
    let (head, body, tail) = left_of(head, body, tail, written);
    let mut place = at.saturating_add(written as u64);
    for piece in [head, body, tail] {
        file.write_all_at(piece, place)?;
        place = place.saturating_add(piece.len() as u64);
    }
    Ok(())
}

fn read_open(file: &Option<File>, at: u64, into: &mut [u8]) -> io::Result<usize>
    ensures { IfOk result (λ n. n ≤ length into.old) }
{
    match file {
        Some(file) => read_full(file, at, into),
        None => Err(ErrorKind::NotFound.into()),
    }
}

impl<R: Files<File = File>> FileDisk<R> {
    /// The file at this path. Nothing is opened yet.
    pub fn of(files: R, path: Text) -> FileDisk<R>
        ensures { ⟦<FileDisk<R> as Disk>⟧.faults result ≡ 0 }
    {
        FileDisk {
            files,
            path,
            file: None,
            is_lost: false,
            faults: 0,
        }
    }

    // Counts a failure.
    fn fail(&mut self) -> Failed
        ensures lost { self.new.is_lost ≡ self.old.is_lost }
        ensures count { self.old.faults ≤ self.new.faults }
        ensures cause { Rose self.old.faults self.new.faults }
    {
        self.faults = self.faults.saturating_add(1);
        Failed
    }

    fn open(&mut self) -> Result<(), Failed>
        ensures lost { self.new.is_lost ≡ self.old.is_lost }
        ensures count { self.old.faults ≤ self.new.faults }
        ensures cause { OnErr result (Rose self.old.faults self.new.faults) }
    {
        if self.file.is_none() {
            match open_file(&self.files, self.path.as_str()) {
                Ok(file) => self.file = Some(file),
                Err(_) => return Err(self.fail()),
            }
        }
        Ok(())
    }

    // Syncs the file. Once that has failed, it fails ever after.
    fn sync_data(&mut self) -> Result<(), Failed>
        ensures stays { IsTrue self.old.is_lost → IsErr result }
        ensures lost { OnErr result (IsTrue self.new.is_lost) }
        ensures count { self.old.faults ≤ self.new.faults }
        ensures cause { OnErr result (Rose self.old.faults self.new.faults) }
    {
        let answer = match &self.file {
            Some(file) if !self.is_lost => file.sync_data(),
            _ => Err(ErrorKind::NotFound.into()),
        };
        self.is_lost = answer.is_err();
        self.told(answer)
    }

    // Counts a failure of the system.
    fn told<T: Drop>(&mut self, answer: io::Result<T>) -> Result<T, Failed>
        ensures count { self.old.faults ≤ self.new.faults }
        ensures cause { OnErr result (Rose self.old.faults self.new.faults) }
        ensures value { IfOk result (λ value. answer ≡ Ok value) }
        ensures told { IfOk answer (λ value. result ≡ Ok value) }
        ensures lost { self.new.is_lost ≡ self.old.is_lost }
    {
        match answer {
            Ok(value) => Ok(value),
            Err(_) => Err(self.fail()),
        }
    }
}

impl<R: Files<File = File>> Disk for FileDisk<R> {
    ghost use Rattle.std.specs.Prelude.{None};
    ghost use Rattle.std.proofs.lemmas.Option.{none-some};

    ghost shown = { λ d. None };

    ghost images = { λ d c. ⊥ };

    ghost moment = { λ d. 0 };

    ghost since = { λ d t c. ⊥ };

    ghost faults = { λ d. d.faults };

    ghost reads = { λ d s e. absurd (none-some s e) };

    ghost tells = { λ d c here. absurd here };

    ghost counts = { λ d t c le here. here };

    ghost only = { λ d c had. had };

    fn read(&mut self, at: u64, into: &mut [u8]) -> Result<usize, Failed> {
        self.open()?;
        let answer = read_open(&self.file, at, into);
        self.told(answer)
    }

    #[tactic(auto, unfolding(crate::specs::Disk::written))]
    fn write_at(&mut self, at: u64, bytes: &[u8]) -> Result<(), Failed> {
        self.open()?;
        let answer = match &self.file {
            Some(file) => file.write_all_at(bytes, at),
            None => return Err(self.fail()),
        };
        self.told(answer)
    }

    #[tactic(auto, unfolding(crate::specs::Disk::written))]
    fn write_framed(
        &mut self,
        at: u64,
        head: &[u8],
        body: &[u8],
        tail: &[u8],
    ) -> Result<(), Failed> {
        self.open()?;
        let answer = match &self.file {
            Some(file) => write_pieces(file, at, head, body, tail),
            None => return Err(self.fail()),
        };
        self.told(answer)
    }

    #[tactic(auto, unfolding(crate::specs::Disk::cut_to))]
    fn cut(&mut self, to: u64) -> Result<(), Failed> {
        self.open()?;
        let answer = match &self.file {
            Some(file) => file.set_len(to),
            None => return Err(self.fail()),
        };
        self.told(answer)
    }

    fn sync(&mut self) -> Result<(), Failed> {
        self.open()?;
        self.sync_data()
    }

    fn len(&mut self) -> Result<u64, Failed> {
        self.open()?;
        let answer = match &self.file {
            Some(file) => file.metadata(),
            None => return Err(self.fail()),
        };
        Ok(self.told(answer)?.len())
    }
}
