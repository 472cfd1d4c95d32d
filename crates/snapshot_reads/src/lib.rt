//! Reads from a published copy of all that outlives the process, beside one publisher, which publishes a change at a time. A read waits for nobody.
#![tactic(auto)]

mod book;
mod other;
mod playing;
mod publisher;
mod rule;
mod shown;
mod snapshot;
mod steps;
mod viewer;

pub use book::{Law, Pair};
pub use publisher::Publisher;
pub use rule::{Knows, Published};
pub use shown::Shown;
pub use snapshot::Snapshot;
pub use viewer::{Viewed, Viewer};
