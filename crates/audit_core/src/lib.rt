//! The verdict on a trace, from any source of bytes.
#![tactic(auto)]

mod auditing;
mod limits;
mod orders;
mod printing;
mod reading;
mod stops;
#[cfg(test)]
mod tests;
mod texts;
mod told;

pub use auditing::audit;
pub use limits::{MAX_LINE, MAX_TRACE};
pub use stops::AuditStop;
