//! Rows of the plain machine and of the world of events: what steps are answered, and what is seen of events, worked out by hand.
#![tactic(auto)]

#[cfg(test)]
mod machine;
#[cfg(test)]
mod requests;
#[cfg(test)]
mod world;
