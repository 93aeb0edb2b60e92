//! The limits of a backup file.

/// A line has at most this many bytes, its line feed not counted; no line that may stand is longer.
pub const MAX_LINE: usize = 4200;
/// There are at most this many lines of calls.
pub const MAX_CALLS: u32 = 100_000;
/// The text of a call has 1 to this many bytes.
pub const MAX_CALL: usize = 4096;
