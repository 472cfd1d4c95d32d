//! The service's state in memory, as it runs: a request is planned, its limits are judged and all memory for it is taken, and then it is carried
//! out, which cannot fail. Between the last two a journal can be written.
#![tactic(auto)]

mod carrying;
mod fault;
mod passing;
mod state;

pub use fault::PrepareFault;
pub use feature_versions::Features;
pub use request_plans::Plan;
pub use state::ServiceState;
