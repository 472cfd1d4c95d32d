//! Rows of the service: what reads, plans and changes come to, worked out by hand.
#![tactic(auto)]

#[cfg(test)]
mod deeds;
#[cfg(test)]
mod marks;
#[cfg(test)]
mod plans;
#[cfg(test)]
mod reads;
#[cfg(test)]
mod samples;
#[cfg(test)]
mod transactions;
#[cfg(test)]
mod versions;
