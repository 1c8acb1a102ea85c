//! Looks at each store, one table of looks for each, and what opening refuses.
#![tactic(auto)]

#[cfg(test)]
mod clauses;
#[cfg(test)]
mod joins;
#[cfg(test)]
mod odds;
#[cfg(test)]
mod opening;
#[cfg(test)]
mod rows;
#[cfg(test)]
mod unsettled;
#[cfg(test)]
mod walks;
