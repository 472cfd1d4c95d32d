//! The bodies of the journal's records: one spelling for each change, and the reader that takes just these spellings.
#![tactic(auto)]

mod fault;
mod field;
mod laws;
mod numbers;
mod parts;
mod record;
mod recorded;
mod shapes;
mod stored;
mod texts;

pub use fault::RecordFault;
pub use laws::{has_one_spelling, reads_back};
pub use record::{put_record, read_record, record_length};
pub use recorded::Recorded;
