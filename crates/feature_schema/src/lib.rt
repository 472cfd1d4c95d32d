//! The schema file: a TOML document that describes the feature types of a service. A wrong file is refused by the first
//! thing that is wrong with it.
#![tactic(auto)]

mod fault;
mod file;
mod properties;
mod sign;
mod tables;
mod texts;
mod types;

pub use fault::SchemaFault;
pub use file::read_schema;
pub use sign::signature;
