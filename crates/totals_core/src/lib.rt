//! Runs a schedule whose rule is that additions commute, and tells what its counters are worth.
#![tactic(auto)]

mod events;
mod header;
mod holdings;
mod telling;
#[cfg(test)]
mod tests;
mod totalling;

pub use totalling::totals;
