//! Rows of the ends and of the messages of a connection, worked out by hand.
#![tactic(auto)]

#[cfg(test)]
mod ends;
#[cfg(test)]
mod session;
