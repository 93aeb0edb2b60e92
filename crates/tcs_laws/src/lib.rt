//! Certification: what a certifier is, which laws it obeys, and the vote of a log's leader.
#![tactic(auto)]

mod certifiers;
mod guards;
mod scan;
mod sight;
mod sighted;

pub use certifiers::Certifier;
pub use guards::VoteGuard;
pub use scan::{ScanGuard, clashes};
pub use sight::{is_below, version_seen, writes};
pub use sighted::BySight;
