//! Rows of runs of the program: what stays on two files from one run to the next and over a start again, links that workers serve, and disks that fail and stop.
#![tactic(auto)]

#[cfg(test)]
mod restarts;
#[cfg(test)]
mod runs;
#[cfg(test)]
mod services;
#[cfg(test)]
mod stops;
