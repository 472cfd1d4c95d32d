//! Documents read into trees.
#![tactic(auto)]

mod declaration;
mod document;
mod fault;
mod front;
mod head;
mod inside;
mod level;
mod lex;
mod names;
mod reference;
mod scope;
mod tag;
mod texts;
mod tree;
mod twins;
mod value;
mod word;

pub use document::{one_tree, read_document};
pub use fault::DocFault;
