//! Closing: setting what the rules of a store force, one literal after another.
#![tactic(auto)]

mod ending;
mod rounds;

pub use ending::Clash;
pub use rounds::{close, try_close};
pub use rules::assign;
