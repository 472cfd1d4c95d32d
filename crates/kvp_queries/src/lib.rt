//! Requests as queries of key-value pairs (OGC 09-025r2, section 6.2.5): the request that a query asks, or the first thing that is
//! wrong with it.
#![tactic(auto)]

mod asking;
mod describing;
mod features;
mod link;
mod lists;
mod locks;
mod names;
mod pairs;
mod request;
mod selecting;
mod sorting;

pub use request::read_query;
