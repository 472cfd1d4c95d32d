//! Filters of features: what they are made of, when one is true of a feature, and which ones a feature type allows.
//!
//! `truth` says whether a filter is true of a feature, and `check` what is wrong first with a filter for a feature type.
//! A `FeatureView` is what filters are put to: features in their default order. What a schema says of the types and
//! properties that filters name, and which kinds of values operators take, is here for the readers of filters too.
#![tactic(auto)]

mod checking;
mod compare;
mod expr;
mod fault;
mod filter;
mod ids;
mod kinds;
mod letters;
mod like;
mod pattern;
mod places;
mod query;
mod spatial;
mod steps;
mod truths;
mod values;
mod view;

pub use checking::{MOST_OPERATORS, check};
pub use expr::{By, Expr};
pub use fault::FilterFault;
pub use filter::Filter;
pub use ids::IdRef;
pub use kinds::{is_comparable, is_equality, is_same, is_shape, is_words, property_in, type_in};
pub use pattern::LikePart;
pub use query::{Query, SortKey};
pub use steps::Steps;
pub use truths::truth;
pub use values::property_of;
pub use view::FeatureView;
