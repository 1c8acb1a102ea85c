//! Tests of trail and branch records.
#![tactic(auto)]

#[cfg(test)]
mod decisions;
#[cfg(test)]
mod entries;
