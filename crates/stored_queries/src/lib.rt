//! The list of stored queries, what a use of one stands for, and the one body behind every read, over any `FeatureView`.
//!
//! `Stored` keeps the list. `expand` and `expand_all` say which queries stand for what is asked, `select_asked` which features these
//! select, and `answer` what a read is answered.
#![tactic(auto)]

mod answering;
mod collecting;
mod describing;
mod expanding;
mod filling;
mod finding;
mod given;
mod paging;
mod readable;
mod refusing;
mod selecting;
mod stored;
mod using;
mod valuing;

pub use answering::answer;
pub use collecting::{held, presented};
pub use expanding::{Meant, expand, expand_all, expand_one};
pub use paging::{link_to, next_page, page, previous_page};
pub use refusing::refusal_of;
pub use selecting::{all_selected, select_asked};
pub use stored::{Stored, first_known, is_there};
