//! `wfsd`: a Web Feature Service (OGC 09-025r2) whose answers are those of one serial history, which outlives the process.
//!
//! The real ends of the program: the files of a folder, the standard input and output, the doors over TCP, and the clock. All that it does by its words stands in
//! `wfsd_program`.
#![tactic(auto)]

ghost use Rattle.std.specs.Prelude.{◌≡◌};
ghost use Rattle.program_output.specs.Lines.{GivesOr, no_memory};

use disk_core::{Disk, FileDisk, Pair};
use program_output::say;
use service_doors::{Acceptor, Doors, TcpDoors};
use std::alloc::Global;
use std::env;
use std::io::ErrorKind;
use std::process::ExitCode;
use std::sync::Wait;
use std::thread::Threads;
use wfs_ends::{
    Clock, InputFile, Mem, OutOfMemory, ReadEnd, RealClock, Sink, Source, StandardInput,
    StandardOutput, Text, WriteEnd,
};
use wfs_words::directory;
use wfsd_commands::OUT_OF_MEMORY;
use wfsd_program::wfsd;

/// The status where the words are refused.
const BAD_WORDS: u8 = 2;

/// What standard error is told then.
const USAGE: &str = "usage: wfsd COMMAND FOLDER

  serve --listen ADDRESS:PORT --workers N [--connections N] FOLDER    serves connections, N at a time (1 to 16)
  talk FOLDER        serves one connection, over the standard input and output
  check FOLDER       counts what the folder holds, and changes nothing
  compact FOLDER     makes the folder's journal shorter
  drill N FOLDER     carries out a list of N rounds of requests, to try a folder

FOLDER has a schema.toml; journal.a and journal.b are made in it.
Proved with rattle-kit-13f logic dac8208d650f15bf.";

/// Makes the real ends, and leaves the rest to `wfsd`. Where memory runs out before that, one line says so. Where the words are
/// refused, standard error is told the right ones.
fn main(rt: HostRuntime) -> ExitCode {
    let alloc = rt.alloc();
    let mut out = WriteEnd::of(StandardOutput::of(&rt));
    let Ok(words) = words_given(&rt, alloc) else {
        return ExitCode::from(say_no_memory(&mut out));
    };
    let Ok(paths) = paths_in(alloc, directory(&words)) else {
        return ExitCode::from(say_no_memory(&mut out));
    };
    let Paths {
        schema,
        side_a,
        side_b,
    } = paths;
    let disks = Pair {
        a: FileDisk::of(&rt, side_a),
        b: FileDisk::of(&rt, side_b),
    };
    let status = status_of(
        &rt,
        alloc,
        &words,
        &mut ReadEnd::of(InputFile::of(&rt, schema)),
        &mut ReadEnd::of(StandardInput::of(&rt)),
        &mut out,
        disks,
        &mut TcpDoors::of(&rt),
        &mut RealClock::of(&rt),
    );
    if status == BAD_WORDS {
        let _ = eprintln!(rt; "{USAGE}");
    }
    ExitCode::from(status)
}

// Says that memory ran out, and answers the status. A fault of the output changes nothing.
fn say_no_memory<O: Sink>(out: &mut O) -> u8
    ensures says { GivesOr (O.sink out.old) no_memory (O.sink out.new) }
    ensures status { result ≡ 8 }
{
    say(out, b"wfsd: no memory\n");
    OUT_OF_MEMORY
}

// The words that follow the program's name. Words that are no text are as none.
fn words_given(rt: &HostRuntime, alloc: Global) -> Mem<Vec<String>> {
    let mut words = Vec::new(alloc);
    match env::args(rt) {
        Ok(all) => {
            for word in all.skip(1) {
                words.push(word)?;
            }
        }
        Err(error) if error.kind() == ErrorKind::OutOfMemory => return Err(OutOfMemory),
        Err(_) => {}
    }
    Ok(words)
}

// The status of what the words ask for. What is left of the store and of the workers goes here.
fn status_of<
    R: Threads + Wait + Sync,
    Q: Source,
    I: Source,
    O: Sink,
    D: Disk + Send + Drop,
    A: Acceptor + Send + Drop,
    G: Doors<Acceptor = A>,
    C: Clock + Send + Drop,
>(
    rt: &R,
    alloc: Global,
    words: &[String],
    schema: &mut Q,
    input: &mut I,
    out: &mut O,
    disks: Pair<D>,
    doors: &mut G,
    clock: &mut C,
) -> u8
where
    A::Link: Send,
{
    let run = wfsd(rt, alloc, words, schema, input, out, disks, doors, clock);
    let status = run.status;
    drop(run);
    status
}

// The files of a folder.
#[derive(Drop)]
struct Paths {
    schema: Text,
    side_a: Text,
    side_b: Text,
}

fn paths_in(alloc: Global, directory: &str) -> Mem<Paths> {
    Ok(Paths {
        schema: path_in(alloc, directory, "/schema.toml")?,
        side_a: path_in(alloc, directory, "/journal.a")?,
        side_b: path_in(alloc, directory, "/journal.b")?,
    })
}

fn path_in(alloc: Global, directory: &str, name: &str) -> Mem<Text> {
    let mut path = String::new(alloc);
    path.push_str(directory)?;
    path.push_str(name)?;
    Text::of_string(path)
}
