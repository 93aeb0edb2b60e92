//! What the command line of the program `tcs_net` asks for, read by `clap`.
#![tactic(auto)]

mod definition;
mod mode;
mod refusal;
mod request;
#[cfg(test)]
mod tests;

pub use mode::Mode;
pub use refusal::Refusal;
pub use request::Request;
