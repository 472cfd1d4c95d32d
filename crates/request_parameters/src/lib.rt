//! What a request says by named values, whatever its form is, judged once: attributes of a document's elements and pairs of a
//! query are asked by one trait, and each value is read, or refused by its row and name, by one function.
#![tactic(auto)]

mod base;
mod elements;
mod locking;
mod operation;
mod paging;
mod said;
mod stored;

pub use base::{format_of, negotiated, service_of, srs_of, version_of};
pub use elements::{Attributes, WFS, is_wfs, misplaced, no_children, no_others, text_in};
pub use locking::{expiry_of, lock_of, period_of, release_of, take_of};
pub use operation::{Operation, operation_of, queried_of};
pub use paging::{Page, locked_page_of, page_of};
pub use said::{Given, kind_of, required_of, value_of};
pub use stored::dropped_of;
