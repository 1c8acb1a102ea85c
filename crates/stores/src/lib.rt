//! A store of rules, its walks over all rules, and two stores joined.
#![tactic(auto)]

mod bylook;
mod joined;
mod look;
mod partial;
mod store;
mod weight;

pub use bylook::ByLook;
pub use joined::Joined;
pub use look::{Find, Look, Refusal};
pub use partial::is_partial;
pub use store::Rules;
pub use weight::gain_of;
