//! The frames of messages in a trace.
ghost use Rattle.std.specs.Prelude.{◌≡◌, ◌&&◌, IfOk};
ghost use Rattle.std.specs.Option.{option_map};
ghost use Rattle.std.specs.Result.{result_ok};
ghost use Rattle.tcs_terms.specs.Kinds.{kind_of, kind_word};
ghost use Rattle.wire_frame.specs.Frames.{read_frame};
ghost use Rattle.trace_text.specs.Versions.{message_fits};
ghost use Rattle.trace_text.specs.Words.{is_word};
ghost use Rattle.trace_text.specs.Readings.{frame_in};

use crate::versions::message_fits;
use crate::words::cut;
use std::alloc::Global;
use tcs_terms::{Message, OutOfMemory};
use text_words::bytes_in;
use wire_frame::{DecodeFault, decode};

/// The message of a frame.
fn message_in(alloc: Global, frame: &[u8]) -> Result<Option<Message>, OutOfMemory>
    ensures { IfOk result (λ message. message ≡ result_ok (read_frame frame.now)) }
{
    match decode(alloc, frame) {
        Ok(message) => Ok(Some(message)),
        Err(DecodeFault::Bad { .. }) => Ok(None),
        Err(DecodeFault::OutOfMemory) => Err(OutOfMemory),
    }
}

/// Whether a message may stand behind the name of this kind, in a trace of this version.
fn may_stand(version: u8, word: &[u8], message: &Message) -> bool
    ensures { result ≡ (is_word (kind_word (kind_of message.now)) word.now && message_fits version message.now) }
{
    word == message.kind().word().as_bytes() && message_fits(version, message)
}

/// The frame that follows the name of its kind, in a trace of this version.
#[tactic(auto, unfolding(crate::specs::Readings::frame_in))]
pub(crate) fn frame_in(
    alloc: Global,
    version: u8,
    text: &[u8],
) -> Result<Option<Vec<u8>>, OutOfMemory>
    ensures { IfOk result (λ frame. option_map (λ v. v.items) frame ≡ frame_in version text.now) }
{
    let Some((word, rest)) = cut(text, b' ') else {
        return Ok(None);
    };
    let Some(frame) = bytes_in(alloc, rest)? else {
        return Ok(None);
    };
    let Some(message) = message_in(alloc, &frame)? else {
        return Ok(None);
    };
    if may_stand(version, word, &message) {
        Ok(Some(frame))
    } else {
        Ok(None)
    }
}
