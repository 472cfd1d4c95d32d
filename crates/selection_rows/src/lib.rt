//! Rows of what types allow of filters, of the model's copies and limits, and of which features lie near a box.
#![tactic(auto)]

#[cfg(test)]
mod filters;
#[cfg(test)]
mod grid;
#[cfg(test)]
mod model;
