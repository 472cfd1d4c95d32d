//! The two documents in which the service describes itself: what it offers, and the schema of its feature types.
//!
//! `put_capabilities` and `put_schema` give them to a sink whole; with `_on` they give them as a piece of a longer text, as
//! `wfs_ends::put_on` does. None of them takes memory.
#![tactic(auto)]

mod capabilities;
mod schema_document;

pub use capabilities::{put_capabilities, put_capabilities_on};
pub use schema_document::{put_schema, put_schema_on};
