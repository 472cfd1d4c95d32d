//! Exact tests of distance: whether geometries lie within a distance of each other.
#![tactic(auto)]

mod gaps;
mod laws;
mod near;
mod segments;
mod within;

pub use laws::{distance_is_monotone, distance_is_symmetric, distance_zero_is_intersecting};
pub use within::{FARTHEST_DISTANCE, within_distance};
