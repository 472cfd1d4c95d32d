//! Rows of the program on one connection: what sessions answer, from bytes to bytes.
#![tactic(auto)]

#[cfg(test)]
mod queries;
#[cfg(test)]
mod served;
#[cfg(test)]
mod sessions;
