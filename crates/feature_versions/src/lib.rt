//! The features of a service and all else that outlives the process: what may be played on it, room for it, and changes that take no memory.
#![tactic(auto)]

mod accepting;
mod boxes;
mod features;
mod layer;
mod layers;
mod playing;
mod reserving;
mod rows;
mod storing;
mod viewing;

pub use features::Features;
pub use stored_queries::Stored;
