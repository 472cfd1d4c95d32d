//! The answers of the service as bytes: what a reply says, as a document in an answer of HTTP.
//!
//! `put_reply` gives a reply to a sink, and `put_fixed` a refusal that no reply holds, as one that is met while a message
//! is read. `reply_length` is the length of a reply's body. None of them takes memory: each goes through the reply as it
//! stands, once for the length and once for the text.
#![tactic(auto)]

mod answer;
mod collection;
mod feature;
mod lock;
mod names;
mod refusal;
mod reply;
mod row;
mod stored;
mod stored_types;
mod transacted;
mod value;
mod values;

pub use refusal::put_fixed;
pub use reply::{put_reply, reply_length};
