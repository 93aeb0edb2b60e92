//! What amounts and sums are within.

/// The greatest amount that a value adds to a counter: 2 ^ 40 - 1.
pub const MAX_AMOUNT: u64 = 1_099_511_627_775;
/// Of so many payloads the sums are told exactly: 2 ^ 23.
pub const MAX_PAYLOADS: usize = 8_388_608;
