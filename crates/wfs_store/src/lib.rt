//! The store: a step is planned, journaled and applied, or nothing happened.
#![tactic(auto)]

mod compacting;
mod course;
mod entering;
mod fault;
mod judging;
mod looking;
mod mending;
mod moving;
mod readying;
mod spelling;
mod starting;
mod stepping;
mod store;
mod writing;

pub use durable_journal::{Counts, OpenFault};
pub use fault::StepFault;
pub use looking::inspect;
pub use moving::may_move;
pub use store::{Store, stands};
