//! Workers: each takes one link after the other from its acceptor, holds a session over it, and finishes it.
//!
//! `work` does so for any service that judges messages, and `run_workers` for several services at once, each in a thread of
//! its own. What the services have in common, as a store under a turn, they know themselves.
#![tactic(auto)]

mod ending;
mod run;
mod visit;
mod worker;
mod working;

pub use ending::WorkerEnd;
pub use run::run_workers;
pub use worker::Worker;
pub use working::work;

#[cfg(test)]
mod tests;
