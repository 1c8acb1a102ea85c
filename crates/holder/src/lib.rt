//! The loans that an office holds, as a growing collection.
#![tactic(auto)]

pub mod held;

pub use held::Loans;
