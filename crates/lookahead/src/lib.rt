//! Lookahead: every free variable is tried both ways, and a node decides what becomes of a branch.
#![tactic(auto)]

mod cases;
mod choosing;
pub mod kinds;
mod literals;
mod looking;
mod trials;
mod working;

pub use cases::cases_hold;
pub use choosing::{fill, set_count};
pub use kinds::{Gains, Outcome};
pub use literals::{adopt, adopt_held, literal_of, write_news};
pub use looking::look_ahead;
pub use trials::trial;
pub use working::node;
