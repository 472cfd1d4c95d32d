//! Shapes on whole-number coordinates, and exact predicates on them.
#![tactic(auto)]

mod blocks;
mod extent;
mod fault;
mod geometry;
mod line;
mod path;
mod placing;
mod polygon;
mod position;
mod ring;
mod sides;

pub use extent::Box2;
pub use fault::GeomFault;
pub use geometry::{Geometry, bounds, in_area};
pub use line::Line;
pub use placing::Place;
pub use polygon::Polygon;
pub use position::{FARTHEST, MOST_POSITIONS, Pos};
pub use ring::Ring;
pub use sides::{orient, segments_meet};
