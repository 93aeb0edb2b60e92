//! The limits of an input, beside those of the service.

/// A run has at most this many proposers.
pub const MAX_PROPOSERS: u8 = 8;
/// Proposers are numbered from this on, and so differ from acceptors.
pub const FIRST_PROPOSER: u8 = 11;
/// The rounds of attempts are numbered from 1 to this.
pub const MAX_ROUND: u32 = 1_000_000;
/// A run has at most this many events.
pub const MAX_EVENTS: u32 = 1_000_000;
/// The numbers of messages that an event may name go from 1 to this.
pub const MAX_MESSAGE: u32 = 4_294_967_295;
