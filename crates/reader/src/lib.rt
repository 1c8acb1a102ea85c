//! Rule files: a text is read whole, into two tables, or refused with a reason and a place.
#![tactic(auto)]

mod checking;
pub mod counts;
mod cursor;
mod filling;
mod header;
mod marks;
mod numerals;
mod parts;
mod reading;
mod runs;
mod scanning;
mod steps;
mod theorem;
mod words;

pub use counts::{Counts, Size};
pub use numerals::number;
pub use reading::read;
pub use runs::first_line;
pub use theorem::reading_right;
