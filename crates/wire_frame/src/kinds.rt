//! The first byte of each frame.
ghost use Rattle.std.specs.Prelude.{◌≡◌};
ghost use Rattle.wire_frame.specs.Spelling.{kind_of};
ghost use Rattle.wire_frame.specs.Reading.{Gives};
ghost use Rattle.wire_frame.specs.Parts.{kind_at};

use crate::faults::{FrameReason, ReadError};
use crate::numbers::{bad_at, byte_of};
use tcs_terms::{Kind, Message};

/// The number of a message's kind, 1 to 17: the first byte of its frame.
pub fn kind(message: &Message) -> u8
    ensures { result ≡ kind_of message.now }
{
    message.kind().number()
}

/// The kind of a number, which is refused with this reason where it is that of none.
#[tactic(auto, unfolding(crate::specs::Parts::kind_at))]
pub(crate) fn kind_of(reason: FrameReason, bytes: &[u8]) -> Result<(Kind, &[u8]), ReadError>
    ensures { Gives (λ x. (x.0, x.1.now)) result (kind_at reason bytes.now) }
{
    let (number, rest) = byte_of(bytes)?;
    match Kind::numbered(number) {
        Some(kind) => Ok((kind, rest)),
        None => Err(bad_at(reason, bytes)),
    }
}
