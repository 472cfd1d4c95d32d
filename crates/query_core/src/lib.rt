//! Which features a query selects, in which order they stand, and how pages are cut out of them.
//!
//! `select` puts a query to a `FeatureView`, `sort_rows` sorts features of a view, `join_rows` puts what several queries select
//! together, and `page` cuts one page out.
#![tactic(auto)]

mod asking;
mod joining;
mod keyed;
mod looking;
mod nearing;
mod ordering;
mod paging;
mod selecting;
mod sorting;
mod walking;

pub use joining::join_rows;
pub use paging::page;
pub use selecting::select;
pub use sorting::sort_rows;

#[cfg(test)]
mod tests;
