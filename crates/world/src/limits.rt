//! A limit on a run.

/// The most events of a run.
pub const MAX_EVENTS: u32 = 1_000_000;
