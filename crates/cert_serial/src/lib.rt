//! Serial certification: what commits is as if it ran alone, one after the other.
#![tactic(auto)]

mod serial;

pub use serial::Serial;

#[cfg(test)]
mod tests;
