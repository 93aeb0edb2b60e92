//! Guards that look objects up instead of going through the rows.
#![tactic(auto)]

mod candidates;
mod index;
mod kept;
mod lookups;
mod place_sets;
mod places;
mod row_search;
mod row_sets;
mod rules;

pub use index::ConflictIndex;
pub use rules::{CommuteIndex, SerialIndex, SnapshotIndex};

#[cfg(test)]
mod generated;
#[cfg(test)]
mod side_by_side;
#[cfg(test)]
mod tests;
