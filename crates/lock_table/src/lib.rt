//! The locks of features: who holds what at each moment, and how locks are granted, renewed and released.
#![tactic(auto)]

mod deadlines;
mod holders;
mod id;
mod kept;
mod laws;
mod noted;
mod numbered;
mod swept;
mod table;
mod words;

pub use id::LockId;
pub use laws::same_are_equal;
pub use table::LockTable;
pub use words::{LockFault, LockStatus, Release};

#[cfg(test)]
mod tests;
