//! Trail and branch records: filling a partial from them, writing the current branch, deciding, and going back.
#![tactic(auto)]

mod filling;
mod going;
mod sides;
mod writing;

pub use filling::{fill_partial, lay_model};
pub use going::{Pile, push_decision, retreat, unsearched};
pub use rules::free_count;
pub use writing::put_branch;
