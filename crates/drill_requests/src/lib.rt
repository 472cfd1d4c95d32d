//! The drill: the list of requests that a number fixes over the types of a schema, and what it comes to.
#![tactic(auto)]

mod drawing;
mod feature;
mod requests;
mod round;

pub use drawing::{moved, round_at};
pub use requests::requests_of;
pub use round::Round;
