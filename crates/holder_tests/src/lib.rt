//! Tests of the held loans, on a book that lends and takes back.
#![tactic(auto)]

#[cfg(test)]
mod loans;
pub mod office;
