//! Tests of the cutoff, by tables.
#![tactic(auto)]

#[cfg(test)]
mod holder;
#[cfg(test)]
mod tables;
