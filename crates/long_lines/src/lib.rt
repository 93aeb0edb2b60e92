//! Lines of any length up to a limit, from a source of bytes.
#![tactic(auto)]

#[cfg(test)]
mod tests;
mod texts;

pub use texts::{TextEnd, Texts};
