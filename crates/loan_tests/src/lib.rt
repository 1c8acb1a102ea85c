//! Tests of the book of loans.
#![tactic(auto)]

#[cfg(test)]
mod books;
