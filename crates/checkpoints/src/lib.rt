//! A journal made shorter: other records that are worth the same become its list, on its other side.
#![tactic(auto)]

mod compacting;
mod fault;
mod records;

pub use compacting::compact;
pub use fault::CompactFault;
pub use records::RecordSource;
