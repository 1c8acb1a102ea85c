//! The book of loans: which cubes wait, which are lent out and which are closed.
#![tactic(auto)]

pub mod held;

pub use held::{Book, Loan, Mark, Refusal, Word};
