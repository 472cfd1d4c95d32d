//! Changes of features laid over a view, as if they were made: a view of its own, over which queries are put in the middle of a transaction.
#![tactic(auto)]

mod changes;
mod overlay;
mod walking;

pub use overlay::Overlay;

#[cfg(test)]
mod tests;
