//! Rows of the journal and what it stands on: disks, records, checkpoints, recovery and replay, worked out by hand.
#![tactic(auto)]

#[cfg(test)]
mod copies;
#[cfg(test)]
mod crashes;
#[cfg(test)]
mod disks;
#[cfg(test)]
mod records;
#[cfg(test)]
mod recovered;
#[cfg(test)]
mod replayed;
