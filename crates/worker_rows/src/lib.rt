//! Rows of a store that several workers serve, each in a thread of its own: from the bytes of their links to what was written on them.
#![tactic(auto)]

#[cfg(test)]
mod rows;
