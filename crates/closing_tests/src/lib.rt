//! Closings over tables, over a join, and over looks alone, held to what they end with and what they leave.
#![tactic(auto)]

#[cfg(test)]
mod closings;
#[cfg(test)]
mod literals;
