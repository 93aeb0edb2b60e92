//! Serial certification in which additions to counters commute.
#![tactic(auto)]

mod commute;

pub use commute::Commute;

#[cfg(test)]
mod tests;
