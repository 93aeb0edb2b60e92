//! The words of results.
ghost use Rattle.std.specs.Prelude.{◌≡◌};
ghost use Rattle.trace_text.specs.Readings.{marked_in, result_in};

use crate::spans::MARKS;
use crate::words::{cut, number_within};
use tcs_terms::{Handled, Result1};

/// A result with a mark.
#[tactic(auto, unfolding(crate::specs::Readings::marked_in))]
fn marked_in(text: &[u8]) -> Option<Result1>
    ensures { result ≡ marked_in text.now }
{
    let (word, mark) = cut(text, b' ')?;
    let mark = number_within(mark, MARKS)? as u32;
    if word == b"stale".as_slice() {
        Some(Result1::Node(Handled::Stale(mark)))
    } else if word == b"held".as_slice() {
        Some(Result1::Node(Handled::Held(mark)))
    } else {
        None
    }
}

/// The result that a text writes.
#[tactic(auto, unfolding(crate::specs::Readings::result_in))]
pub(crate) fn result_in(text: &[u8]) -> Option<Result1>
    ensures { result ≡ result_in text.now }
{
    if text == b"acted".as_slice() {
        Some(Result1::Node(Handled::Acted))
    } else if text == b"full".as_slice() {
        Some(Result1::Node(Handled::Full))
    } else if text == b"gone".as_slice() {
        Some(Result1::Gone)
    } else if text == b"unsent".as_slice() {
        Some(Result1::Unsent)
    } else {
        marked_in(text)
    }
}
