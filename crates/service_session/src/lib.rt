//! A session: message after message of a connection is read, judged by a service, and answered.
//!
//! `session` holds one over a link, for any service that judges messages. What the service is, a list in memory, a store
//! or a store under a turn, its `Service` says: the session gives it each message with its moment, and writes what it answers.
#![tactic(auto)]

mod answered;
mod ending;
mod gate;
mod hold;
mod round;
mod service;
mod solo;

pub use answered::Answered;
pub use ending::SessionEnd;
pub use gate::{Gate, GatePoint, NoGate};
pub use hold::session;
pub use service::Service;
pub use solo::{answer_of, solo_session};

#[cfg(test)]
mod tests;
