//! Rows of the store: what its steps are answered, what its two files hold, and what the next run finds after a fault or a stop.
#![tactic(auto)]

#[cfg(test)]
mod disks;
#[cfg(test)]
mod faults;
#[cfg(test)]
mod full;
#[cfg(test)]
mod held;
#[cfg(test)]
mod last;
#[cfg(test)]
mod long;
#[cfg(test)]
mod pieces;
#[cfg(test)]
mod requests;
#[cfg(test)]
mod runs;
#[cfg(test)]
mod shorter;
#[cfg(test)]
mod sides;
#[cfg(test)]
mod starts;
#[cfg(test)]
mod steps;
#[cfg(test)]
mod stops;
