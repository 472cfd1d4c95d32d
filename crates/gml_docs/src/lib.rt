//! Geometries as elements of GML 3.2.1 (OGC 07-036): how they are read, and how they are written.
#![tactic(auto)]

mod element;
mod envelope;
mod fault;
mod laws;
mod numbers;
mod path;
mod positions;
mod print;
mod read;
mod tree;
mod words;

pub use element::GML;
pub use envelope::read_envelope;
pub use fault::GmlFault;
pub use laws::{round_trip, stands_alike};
pub use numbers::read_position;
pub use print::{GeometryId, geometry_length, put_geometry};
pub use read::read_geometry;
pub use tree::geometry_tree;
