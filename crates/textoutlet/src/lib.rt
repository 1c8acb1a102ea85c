//! An outlet that writes a line of text for each entry.
#![tactic(auto)]

mod counts;
pub mod out;

pub use out::TextOutlet;
