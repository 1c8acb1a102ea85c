//! Nodes over small questions, held to what becomes of the branch, to the last partial and to the next cutoff.
#![tactic(auto)]

mod contrary;
#[cfg(test)]
mod questions;
#[cfg(test)]
mod rows;
#[cfg(test)]
mod shared;
