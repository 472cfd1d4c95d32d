//! A journal on two files: what is acknowledged is never lost and what was not made never appears, at whatever moment
//! the power fails.
//!
//! A side is one of the two files. Byte 0 is its gate; bytes 1 to 7 are the mark and the version, bytes 8 to 15 its
//! generation; then come records, each a gate, a length of four bytes and a body, and one closed gate. A gate is open
//! where its byte is 1. What stands behind an open gate was synced before the gate was written.
#![tactic(auto)]

mod adding;
mod beside;
mod fault;
mod journal;
mod laws;
mod making;
mod pending;
mod settling;
mod side;
mod sides;

pub use fault::{AppendFault, DiskFault};
pub use journal::Journal;
pub use laws::{
    current_is_of_the_greater_generation, reads_records_back, recovers_nothing,
    recovers_what_is_said, recovers_whole_images, refuses_foreign_sides, refuses_torn_records,
    stands,
};
pub use settling::{settle, shut_stale};

#[cfg(test)]
mod tests;
