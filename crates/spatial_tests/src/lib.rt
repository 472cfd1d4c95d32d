//! Exact spatial tests: whether geometries share a position.
#![tactic(auto)]

mod segments;
mod sharing;

pub use sharing::{disjoint, intersects, meets_box};
