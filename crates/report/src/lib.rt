//! What the program `split` writes for an input, as a function from bytes to bytes.
#![tactic(auto)]

mod counts;
mod input;
mod lines;

pub use input::report;
