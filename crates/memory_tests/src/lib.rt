//! Tests of the stack over lent memory, of lines and of the outlets.
#![tactic(auto)]

#[cfg(test)]
mod lines_in_bytes;
#[cfg(test)]
mod outlets;
#[cfg(test)]
mod stacks;
#[cfg(test)]
mod wrapped;
