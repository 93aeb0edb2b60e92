//! What counters are worth: the amount that a payload adds to one, and the sums of amounts by counter.
#![tactic(auto)]

mod amounts;
mod limits;
mod rows;
mod sums;
#[cfg(test)]
mod tests;
mod totals;

pub use amounts::{amount, is_counter};
pub use limits::{MAX_AMOUNT, MAX_PAYLOADS};
pub use rows::{node_total, sums_of_rows};
pub use sums::{Sums, add};
pub use totals::Totals;
