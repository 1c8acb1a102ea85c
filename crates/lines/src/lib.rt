//! Entries as lines of text, written into lent bytes.
#![tactic(auto)]

mod sinks;
pub mod widths;
pub mod write;

pub use widths::line_fits;
pub use write::{Line, put_line};
