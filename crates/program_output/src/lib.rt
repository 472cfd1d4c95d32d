//! The lines that the program writes, as writers over any sink.
#![tactic(auto)]

mod refusals;
mod summaries;

pub use refusals::{say, say_place, say_record, say_refused};
pub use summaries::{put_counts, put_rounds, put_serving, put_sides};

#[cfg(test)]
mod tests;
