//! What is recovered from two files after a crash, and what a recovery writes.
//!
//! `recover` reads both sides of a journal and hands the bodies of its records to a `Replay`. It answers the journal, or
//! the first refusal. `look_over` reads as it does and writes nothing.
#![tactic(auto)]

mod choose;
mod fault;
mod head;
mod laws;
mod look;
mod recovering;
mod replay;
mod walk;

pub use fault::{Place, RecoverFault};
pub use laws::recovers_as_defined;
pub use recovering::{look_over, recover};
pub use replay::{Replay, ReplayFault};
