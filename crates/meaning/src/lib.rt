//! What a list of rules means as a store.
#![tactic(auto)]

pub use rules::Kind;
