//! The calls that read the words.
ghost use Rattle.std.specs.Prelude.{◌≡◌, option_map, map, string_bytes, IfOk, Err, None, Some};
ghost use Rattle.wfs_words.specs.Words.{asked_of, command_for, directory_of};

use crate::asked::{Task, asked_of};
use crate::by_clap::asked_by_clap;
use crate::command::{Command, WordFault};
use std::alloc::Global;
use wfs_ends::Text;

/// The command that the words behind the program's name ask for.
///
/// `Refused` comes exactly where they are not those of a command; `OutOfMemory` is tied to no cause.
pub fn read_words(alloc: Global, words: &[String]) -> Result<Command, WordFault>
    ensures command { IfOk result (λ c. option_map (λ a. a.command)
        (asked_of (map string_bytes words.now)) ≡ Some c) }
    ensures refused { result ≡ Err WordFault.Refused
        → asked_of (map string_bytes words.now) ≡ None }
{
    match asked_by_clap(alloc, words) {
        Ok(asked) => command_for(alloc, asked.task),
        Err(fault) => Err(fault),
    }
}

/// The command, with its text kept.
fn command_for(alloc: Global, task: Task<'_>) -> Result<Command, WordFault>
    ensures command { IfOk result (λ c. c ≡ command_for task.entry) }
    ensures memory { result ≡ Err WordFault.Refused → ⊥ }
{
    match task {
        Task::Talk => Ok(Command::Talk),
        Task::Check => Ok(Command::Check),
        Task::Compact => Ok(Command::Compact),
        Task::Drill(requests) => Ok(Command::Drill(requests)),
        Task::Serve {
            listen,
            workers,
            connections,
        } => match Text::of(alloc, listen) {
            Ok(listen) => Ok(Command::Serve {
                listen,
                workers,
                connections,
            }),
            Err(_) => Err(WordFault::OutOfMemory),
        },
    }
}

/// The word that names the directory, or the empty text where the words are refused. It takes no memory.
pub fn directory(words: &[String]) -> &str
    ensures { result.now ≡ directory_of (asked_of (map string_bytes words.now)) }
{
    match asked_of(words) {
        Some(asked) => asked.directory,
        None => "",
    }
}
