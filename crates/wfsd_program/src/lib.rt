//! All that the program does, by its words: links that are served by workers side by side, and the commands that wait for nobody.
#![tactic(auto)]

mod ending;
mod places;
mod program;
mod run;
mod serving;
mod words;

pub use program::wfsd;
pub use run::Run;
