//! What transactions come to, on any view of features and without changing anything: the plans that the machines of the service carry out.
#![tactic(auto)]

mod changing;
mod fault;
mod guard;
mod inserting;
mod laying;
mod naming;
mod permitting;
mod planned;
mod planning;
mod refusing;
mod selecting;
mod tally;

pub use fault::PlanFault;
pub use naming::number_by;
pub use permitting::rid_text;
pub use planned::Planned;
pub use planning::plan;
