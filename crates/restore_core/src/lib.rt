//! `restore`: a backup file in, the schedule that puts its objects back out.
#![tactic(auto)]

mod laws;
mod printing;
mod reading;
mod restoring;
mod stops;
#[cfg(test)]
mod tests;

pub use laws::{a_file_is_restored, the_bad_line_is_the_first, what_is_restored_is_a_file};
pub use restoring::restore;
pub use stops::RestoreStop;
