//! A list in pages, whose versions share the pages that they have in common.
#![tactic(auto)]

mod branch;
mod copies;
mod freeze;
mod leaf;
mod page;
mod paged_list;
mod search;

pub use copies::Copies;
pub use paged_list::PagedList;
