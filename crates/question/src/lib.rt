//! From the text of a rule file to a store: both have the same satisfying assignments.
#![tactic(auto)]

mod opening;

pub use opening::{open, read};
