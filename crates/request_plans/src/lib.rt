//! What changing requests come to, on any view of features and without changing anything: the reply, the change to be kept, and the work on
//! locks. `plan_request` plans, `reserve_locks` takes the memory that the work on locks wants, and `carry_locks` then does it and cannot fail.
#![tactic(auto)]

mod basis;
mod carrying;
mod counting;
mod dividing;
mod locking;
mod naming;
mod plan;
mod planning;
mod storing;
mod transacting;

pub use basis::Basis;
pub use carrying::{carry_locks, reserve_locks};
pub use counting::features_after;
pub use plan::{LockWork, Plan};
pub use planning::plan_request;
