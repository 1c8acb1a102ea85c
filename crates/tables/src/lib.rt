//! Tables of clauses and of odd rules as stores: each walk goes over the table once.
#![tactic(auto)]

mod both;
mod looks;
mod opening;
mod scan;
mod table;

pub use both::Tables;
pub use table::Table;
