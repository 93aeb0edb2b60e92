//! Frames that no message has.

use crate::commands::Tally;
use std::alloc::{AllocError, Global};
use wire_frame::{DecodeFault, FrameReason, decode};

/// The frame of a trace's line, where it is the line of a message of this kind; any kind where the word is empty.
fn frame_in(alloc: Global, line: &str, kind: &str) -> Result<Option<Vec<u8>>, AllocError> {
    let mut words = line.split(' ');
    if words.next() != Some("m") {
        return Ok(None);
    }
    let told = words.nth(3);
    let (Some(told), Some(digits)) = (told, words.next()) else {
        return Ok(None);
    };
    if !kind.is_empty() && told != kind {
        return Ok(None);
    }
    match text_words::bytes_in(alloc, digits.as_bytes()) {
        Ok(bytes) => Ok(bytes),
        Err(_) => Err(AllocError),
    }
}

/// Whether a frame is refused for this reason at this place.
fn is_refused(alloc: Global, frame: &[u8], reason: FrameReason, place: usize) -> bool {
    match decode(alloc, frame) {
        Ok(_) => false,
        Err(fault) => fault == DecodeFault::Bad { reason, place },
    }
}

/// Each proper front of the frame, then the frame with a byte behind it, then the frame with 0 as its first byte.
fn count_frame(alloc: Global, frame: &[u8], tally: &mut Tally) -> Result<(), AllocError> {
    for end in 0..frame.len() {
        tally.case(is_refused(alloc, &frame[..end], FrameReason::Short, end));
    }
    let mut forged = frame.to_vec(alloc)?;
    forged.push(0).map_err(|_| AllocError)?;
    tally.case(is_refused(alloc, &forged, FrameReason::Trailing, frame.len()));
    forged.clear();
    forged.push(0).map_err(|_| AllocError)?;
    forged.extend_from_slice(frame.get(1..).unwrap_or(&[]))?;
    tally.case(is_refused(alloc, &forged, FrameReason::Kind, 0));
    Ok(())
}

/// Counts the frames of a trace that are of this kind, of each kind where the word is empty.
pub(crate) fn count(
    alloc: Global,
    trace: &str,
    kind: &str,
    tally: &mut Tally,
) -> Result<(), AllocError> {
    for line in trace.lines() {
        if let Some(frame) = frame_in(alloc, line, kind)? {
            count_frame(alloc, &frame, tally)?;
        }
    }
    Ok(())
}
