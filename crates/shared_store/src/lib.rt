//! The store that many seats change, one at a time, and read, by turns or from what is published: a seat's turns, and the service that it is to its
//! sessions.
#![tactic(auto)]

mod counter;
mod desk;
mod stepping;
mod taking;
mod viewing;

pub use counter::Counter;
pub use desk::Desk;
pub use stepping::step_in_turn;
