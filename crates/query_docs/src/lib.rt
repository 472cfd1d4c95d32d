//! Queries as documents: the elements in which a request asks for features, definitions of stored queries, and the text that a stored
//! query keeps of its queries.
#![tactic(auto)]

mod asked;
mod definition;
mod elements;
mod fault;
mod query;
mod seen;
mod sorting;
mod text;
mod trees;

pub use asked::read_asked;
pub use definition::read_definition;
pub use fault::StoredTextFault;
pub use text::{read_text, text_of};
