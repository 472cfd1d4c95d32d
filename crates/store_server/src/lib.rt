//! A store served by workers side by side, each at a seat of its own.
#![tactic(auto)]

mod giving;
mod seating;
mod serving;
mod slot;

pub use serving::serve;
pub use slot::{Ended, Served, Slot};
