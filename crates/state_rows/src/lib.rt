//! Rows of the service's state in memory: what steps of one opening come to, worked out by hand.
#![tactic(auto)]

#[cfg(test)]
mod asks;
#[cfg(test)]
mod marks;
#[cfg(test)]
mod steps;
