//! Filters as elements of FES 2.0 (OGC 09-026r2): how they are read, and how they are written.
#![tactic(auto)]

mod areas;
mod compare;
mod element;
mod fault;
mod ids;
mod laws;
mod like;
mod operands;
mod operator;
mod predicates;
mod read;
mod sides;
mod spatial;
mod uses;
mod write;
mod written;

pub use element::{FES, is_fes};
pub use fault::FilterDocFault;
pub use laws::{read_is_allowed, round_trip};
pub use read::{read_filter, read_filter_in};
pub use write::{filter_tree, filter_tree_in};
