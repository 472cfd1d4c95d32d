//! Feature types, features and their values: what a schema allows, how a value is read from text, how two values
//! compare, and the identifiers of features.
#![tactic(auto)]

mod fault;
mod feature;
mod fitting;
mod ids;
mod read;
mod schema;
mod value;

pub use fault::ValueFault;
pub use feature::{Feature, Rid};
pub use fitting::{fits, is_of_kind};
pub use ids::{read_number, read_rid, without_prefix};
pub use read::{read_as, read_value};
pub use schema::{FeatureType, Property, Schema, ValueKind};
pub use value::{Value, compare};
