//! The words that every layer shares: literals, assignments, rules, and what is wrong with a text or a table.
#![tactic(auto)]

pub mod fault;
pub mod kind;
pub mod literal;

pub use fault::{Fault, Reason};
pub use kind::Kind;
pub use literal::{assign, byte_of, free_count, is_true, opposite, place_of, side_of};
