//! The words of the command line: what they ask for, and of which directory.
#![tactic(auto)]

mod asked;
mod by_clap;
mod command;
mod number;
mod options;
mod read;

pub use command::{Command, WordFault};
pub use read::{directory, read_words};
