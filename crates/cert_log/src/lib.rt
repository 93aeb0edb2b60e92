//! The log of a node: rows in ascending slots, each an entry and what is known of its outcome, with the guard that
//! gives a leader's votes. `Fenced` is a log to which no call adds a row.
#![tactic(auto)]

mod faults;
mod fenced;
mod log;
mod marks;
mod row_search;
mod standing;
#[cfg(test)]
mod tests;
mod votes;

pub use faults::PrepareFault;
pub use fenced::Fenced;
pub use log::CertLog;
