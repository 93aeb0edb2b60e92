//! The machine of a backup: it is given the values of a range of objects, hands out a payload for each slice of the
//! range, and is told their outcomes. Once all of them commit, what it kept is the range at one place of the order.
#![tactic(auto)]

mod backup;
mod faults;
mod objects;
mod outcomes;
mod slices;
#[cfg(test)]
mod tests;

pub use backup::Backup;
pub use faults::BackupFault;
pub use objects::{Kept, MAX_OBJECTS, comes_after, in_range};
