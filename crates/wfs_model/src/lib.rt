//! The model of the service: its requests and replies, what it keeps, and what each request answers and leaves, stated on plain lists
//! (`specs/`). The machines that carry requests out, the readers of requests and the writers of replies stand on it.
#![tactic(auto)]

mod action;
mod asked;
mod change;
mod entry;
mod fault;
mod laws;
mod limits;
mod link;
mod reply;
mod request;
mod stored;
mod terms;

pub use action::Action;
pub use asked::{Asked, Present};
pub use change::{Change, Part};
pub use entry::{Entry, LAST_MOMENT};
pub use fault::{AskFault, StoredFault};
pub use laws::{
    changes_of_steps_may_be_played, changes_tell_what_is_kept, each_step_sets_the_moment,
    playing_keeps_what_is_kept_well, refused_changes_nothing, steps_keep_what_is_kept_well,
};
pub use limits::{FullAt, LimitName, Limits};
pub use link::page_link;
pub use lock_table::{LockId, Release};
pub use reply::{Made, Refusal, Reply};
pub use request::{Request, Take};
pub use stored::{ID_QUERY_URN, StoredQuery, is_id_query};
pub use terms::{is_format, is_listed, is_version, read_count, refused};
