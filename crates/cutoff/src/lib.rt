//! When a branch is cut, and how easing moves the threshold.
#![tactic(auto)]

pub mod keeping;
pub mod kinds;
mod theta;

pub use keeping::{Kept, Kind};
pub use kinds::{Cutoff, Refusal};
