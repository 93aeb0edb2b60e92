//! Messages as frames of bytes: each message has one spelling, and each frame that is none has a first fault.
#![tactic(auto)]

mod buffer;
mod configurations;
mod decoding;
mod encoding;
mod entries;
mod faults;
mod kinds;
mod laws;
mod messages;
mod names;
mod numbers;
mod parts;
mod payload_parts;
mod payloads;
mod room;
mod rows;
mod sets;
mod states;

pub use decoding::decode;
pub use encoding::{encode, encode_into};
pub use faults::{DecodeFault, FrameReason};
pub use kinds::kind;
pub use laws::{begins_no_other, gives_back, one_spelling};

#[cfg(test)]
mod tests;
