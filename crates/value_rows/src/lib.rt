//! Rows of shapes and values: what is said of them, worked out by hand or by exact fractions; and a law of
//! shapes.
#![tactic(auto)]

mod laws;

pub use laws::same_areas_are_equal;

#[cfg(test)]
mod distances;
#[cfg(test)]
mod geometry;
#[cfg(test)]
mod places;
#[cfg(test)]
mod relations;
#[cfg(test)]
mod values;
