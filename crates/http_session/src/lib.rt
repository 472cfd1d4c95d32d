//! The messages of a connection, read as RFC 9112 and this project's limits cut its bytes, whatever pieces they come in.
#![tactic(auto)]

mod body;
mod buffer;
mod chunks;
mod cut;
mod fields;
mod head;
mod line;
mod message;
mod plan;
mod reader;
mod spot;
mod start;
mod watch;

pub use message::{Ending, Message, Next};
pub use reader::{Reader, one_reading};
