//! Snapshot certification: of two transactions that overlap and write one object, one aborts. Reads are not checked.
#![tactic(auto)]

mod snapshot;

pub use snapshot::Snapshot;

#[cfg(test)]
mod tests;
