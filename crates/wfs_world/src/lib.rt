//! Every interleaving of some seats that share one machine of the service and its journal: requests that wait, the one in turn, what the journal
//! takes of it or loses, reads of earlier states, and crashes between any two steps. It is for reasoning: the running service takes just
//! these steps.
#![tactic(auto)]

mod entering;
mod event;
mod laws;
mod opening;
mod replaying;
mod running;
mod scene;
mod taking;
mod turn;
mod world;

pub use event::{Event, PutOutcome, Seen, WorldFault};
pub use laws::{
    a_new_opening_has_all_that_entered, answers_are_the_replies_of_the_history,
    what_has_entered_stays, whatever_happens_is_sound,
};
pub use world::World;
