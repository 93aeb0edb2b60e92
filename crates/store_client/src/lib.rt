//! A client's session: the values that it reads, what it wants to write, and the payload that it commits.
#![tactic(auto)]

mod faults;
mod parts;
mod session;
#[cfg(test)]
mod tests;

pub use faults::SessionFault;
pub use parts::Part;
pub use session::{Session, SessionState};
