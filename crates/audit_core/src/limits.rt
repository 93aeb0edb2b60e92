//! Limits on what is read.

/// The most bytes of a line, without its line feed.
pub const MAX_LINE: usize = 33_554_432;
/// The most bytes of a trace.
pub const MAX_TRACE: u64 = 4_294_967_296;
