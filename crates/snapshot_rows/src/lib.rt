//! Rows of published copies: what a viewer finds before and after a change is published, and where a publish is refused.
#![tactic(auto)]

#[cfg(test)]
mod rows;
