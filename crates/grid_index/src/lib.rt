//! Which features lie near a box, by the cells of the plane that their own boxes cover.
#![tactic(auto)]

mod cells;
mod found;
mod grid;
mod laws;
mod lists;
mod places;
mod reserving;
mod search;

pub use grid::Grid;
pub use laws::{spare_alone, spare_without};
