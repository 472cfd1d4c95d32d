//! What a message asks of the service: its request, or the first refusal, and the entry that it becomes.
#![tactic(auto)]

mod asks;
mod entry;
mod size;

pub use asks::{read_asked, split_target};
pub use entry::entry_of;
pub use size::size_of;
