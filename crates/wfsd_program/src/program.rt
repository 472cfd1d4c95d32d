//! All that the program does, by its words.

ghost use Rattle.std.specs.Prelude.{◌≡◌, map, IfSome};
ghost use Rattle.std.specs.String.{string_bytes};
ghost use Rattle.wfsd_commands.specs.Talk.{Heard, TalkEnds};
ghost use Rattle.wfsd_program.specs.Left.{IsLeftStanding};
ghost use Rattle.wfsd_program.specs.Runs.{ProgramEnds, Runs};

use crate::run::{Run, without_workers};
use crate::serving::serve;
use crate::words::ServeWords;
use disk_core::{Disk, Pair};
use service_doors::{Acceptor, Doors};
use std::alloc::Global;
use std::sync::Wait;
use std::thread::Threads;
use wfs_ends::{Clock, Sink, Source};
use wfs_words::{Command, WordFault, read_words};
use wfsd_commands::{
    check_store, compact_store, drill_rounds, end_for_memory, end_for_words, talk,
};

/// Does all that the program does, by the words that follow its name: `serve` serves those that connect to the doors, `talk` holds a session over the input and the
/// output, `check` tells what the disks hold, `compact` makes their journal shorter, and `drill` carries out a list of requests. For other words the status is 2, and one
/// line is written; where that write fails, the status stays.
pub fn wfsd<
    R: Threads + Wait + Sync,
    Q: Source,
    I: Source,
    O: Sink,
    D: Disk + Send,
    A: Acceptor + Send + Drop,
    G: Doors<Acceptor = A>,
    C: Clock + Send + Drop,
>(
    rt: &R,
    alloc: Global,
    words: &[String],
    schema: &mut Q,
    input: &mut I,
    out: &mut O,
    disks: Pair<D>,
    doors: &mut G,
    clock: &mut C,
) -> Run<D, A, C>
where
    A::Link: Send,
    ensures runs { Runs D.Disk A.accepting C.moments (map string_bytes words.now) disks
        (record {
          talk = record {
            schema = Q.source schema.old;
            heard = record {
              input = I.source input.old;
              out = O.sink out.old;
              clock = C.moments clock.old;
            };
          };
          doors = G.listening doors.old;
        })
        result
        (record {
          talk = record {
            schema = Q.source schema.new;
            heard = record {
              input = I.source input.new;
              out = O.sink out.new;
              clock = C.moments clock.new;
            };
          };
          doors = G.listening doors.new;
        }) }
    ensures left { IfSome result.store (IsLeftStanding D.Disk disks) }
{
    match read_words(alloc, words) {
        Ok(
            Command::Serve {
                listen,
                workers,
                connections,
            },
        ) => {
            let wanted = ServeWords {
                listen,
                workers,
                connections,
            };
            serve(rt, alloc, &wanted, schema, out, disks, doors, clock)
        }
        Ok(Command::Talk) => without_workers(alloc, talk(alloc, schema, input, out, disks, clock)),
        Ok(Command::Check) => without_workers(alloc, check_store(alloc, schema, out, disks)),
        Ok(Command::Compact) => without_workers(alloc, compact_store(alloc, schema, out, disks)),
        Ok(Command::Drill(rounds)) => {
            without_workers(alloc, drill_rounds(alloc, rounds, schema, out, disks))
        }
        Err(WordFault::Refused) => without_workers(alloc, end_for_words(out, disks)),
        Err(WordFault::OutOfMemory) => without_workers(alloc, end_for_memory(out, disks)),
    }
}
