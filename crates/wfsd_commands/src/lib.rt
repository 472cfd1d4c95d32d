//! The commands of the program that wait for nobody: a session over the store, a look at what it holds, a journal made shorter, and a drill. With them, what comes
//! before any command's own work: the schema, the store, and the lines and statuses of what refuses them.
#![tactic(auto)]

mod commands;
mod conversation;
mod done;
mod drill_command;
mod drilling;
mod load;
mod restart;
mod source;
mod starting;
mod statuses;

pub use commands::{check_store, compact_store};
pub use conversation::talk;
pub use done::{DONE, Done, OUT_OF_MEMORY, WRITE_FAULT, leave_disks};
pub use drill_command::{drill, drill_rounds};
pub use load::{Unloaded, load_schema};
pub use restart::start_again;
pub use starting::{end_for_memory, end_for_words, end_unloaded, start_store};
pub use statuses::say_unopened;
