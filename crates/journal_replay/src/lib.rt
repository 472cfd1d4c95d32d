//! What the bodies of a journal's records come to: each is judged behind those before it, and what outlived the process is had
//! again from them.
#![tactic(auto)]

mod bodies;
mod change;
mod checkpoint;
mod filling;
mod laws;
mod rebuild;

pub use bodies::Bodies;
pub use checkpoint::CheckpointSource;
pub use laws::{
    a_checkpoint_plays_to_what_it_was_made_of, changes_are_had_again, checkpoints_are_had_again,
    each_body_plays_one_change, what_bodies_come_to_is_kept_well,
};
pub use rebuild::Rebuild;
