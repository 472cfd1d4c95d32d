//! Rows of replies that no request comes to, as bytes, written by hand from the formats.
#![tactic(auto)]

#[cfg(test)]
mod refusals;
#[cfg(test)]
mod samples;
#[cfg(test)]
mod schemas;
#[cfg(test)]
mod unreached;
