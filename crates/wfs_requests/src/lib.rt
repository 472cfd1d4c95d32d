//! Requests as documents: a tree of elements is read as a request of the Web Feature Service 2.0 (OGC 09-025r2), or it is
//! told why it is refused.
#![tactic(auto)]

mod actions;
mod base;
mod capabilities;
mod changes;
mod describing;
mod features;
mod fetching;
mod inserts;
mod request;
mod stored_queries;
mod transactions;
mod updates;
mod values;

pub use request::read_request;
