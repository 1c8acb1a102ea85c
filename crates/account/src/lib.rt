//! The account of the tree: what the calls on a splitter come to, and what is so after any list of them.
#![tactic(auto)]

mod theorem;

pub use theorem::{piles_right, runs_hold, tree_holds};
