//! The plain machine of the service: it takes the steps that the model defines, one by one, in memory and over one list of features. It is for
//! reasoning, and for a service whose state may end with the process.
#![tactic(auto)]

mod changing;
mod dividing;
mod locking;
mod naming;
mod ordered;
mod plain;
mod playing;
mod storing;
mod transacting;
mod viewing;

pub use plain::Plain;
pub use stored_queries::Stored;
