//! What stands in memory of an opening.

use request_plans::Plan;
use service_state::ServiceState;
use std::alloc::Global;
use wfs_ends::Text;
use wfs_model::{Change, Entry, Limits};

/// What stands in memory of an opening: its history, and the state that it leaves.
#[derive(Drop)]
pub(crate) struct Course {
    pub(crate) alloc: Global,
    pub(crate) limits: Limits,
    pub(crate) signature: Text,
    pub(crate) state: ServiceState,
    pub(crate) history: Vec<Entry>,
    // the sum of the entries' sizes
    pub(crate) bytes: u64,
    // the change that the last entry made
    pub(crate) last: Option<Change>,
    // the body of the change that is to be recorded
    pub(crate) body: Vec<u8>,
}

/// All that a step needs to be carried out.
#[derive(Drop)]
pub(crate) struct Ready {
    // the moment at which the entry is taken up
    pub(crate) moment: u64,
    pub(crate) plan: Plan,
    // a copy of the plan's change
    pub(crate) made: Option<Change>,
}
