//! Rows of documents: trees as text, read again, and moments, each beside what the standards say of it.
#![tactic(auto)]

#[cfg(test)]
mod laws;
#[cfg(test)]
mod moments;
#[cfg(test)]
mod names;
#[cfg(test)]
mod trees;
