//! The date and time of a moment, as text.
#![tactic(auto)]

mod moment;

pub use moment::moment_text;
