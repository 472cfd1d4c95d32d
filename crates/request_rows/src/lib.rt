//! Rows of requests: what words ask for, and what a drill asks, worked out by hand.
#![tactic(auto)]

#[cfg(test)]
mod drill;
#[cfg(test)]
mod words;
