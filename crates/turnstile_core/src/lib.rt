//! A value that threads change in turns, with a history that only grows.
#![tactic(auto)]

mod closing;
mod gate;
mod kept;
mod plays;
mod seat;
mod seating;
mod steps;
mod turns;
mod turnstile;
mod view;

pub use kept::Kept;
pub use seat::{Returned, Seat, Turn};
pub use turnstile::Turnstile;
pub use view::{Past, Stage, View};

#[cfg(test)]
mod tests;
