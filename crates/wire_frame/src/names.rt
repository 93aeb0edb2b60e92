//! Reads names and values.
ghost use Rattle.std.specs.Prelude.{◌≡◌, IfOk};
ghost use Rattle.tcs_terms.specs.Objects.{IsName};
ghost use Rattle.wire_frame.specs.Reading.{Gives};
ghost use Rattle.wire_frame.specs.Parts.{name_at, name_above, value_at};

use crate::faults::{Fault, FrameReason, ReadError};
use crate::numbers::{bad_at, byte_of, run_of};
use crate::sets::up_to;
use tcs_terms::limits::{MAX_NAME, MAX_VALUE};
use tcs_terms::{Value, name_before, strange_byte};

#[tactic(auto, unfolding(crate::specs::Parts::name_at))]
fn letters_of(bytes: &[u8]) -> Result<(&[u8], &[u8]), ReadError>
    ensures { Gives (λ x. (x.0.now, x.1.now)) result (name_at bytes.now) }
{
    let (count, after) = up_to(MAX_NAME as u8, bytes)?;
    let (name, rest) = run_of(count as usize, after)?;
    match strange_byte(name) {
        None => Ok((name, rest)),
        Some(place) => Err(ReadError::Bad(Fault {
            reason: FrameReason::Range,
            left: after.len().saturating_sub(place),
        })),
    }
}

/// The bytes of a name.
pub fn name_of(bytes: &[u8]) -> Result<(&[u8], &[u8]), ReadError>
    ensures read { Gives (λ x. (x.0.now, x.1.now)) result (name_at bytes.now) }
    ensures name { IfOk result (λ x. IsName x.0.now) }
{
    letters_of(bytes)
}

/// The bytes of a name that stands after the last one.
#[tactic(auto, unfolding(crate::specs::Parts::name_above))]
pub fn name_after<'a>(last: &[u8], bytes: &'a [u8]) -> Result<(&'a [u8], &'a [u8]), ReadError>
    ensures read { Gives (λ x. (x.0.now, x.1.now)) result (name_above last.now bytes.now) }
    ensures name { IfOk result (λ x. IsName x.0.now) }
{
    let (name, rest) = name_of(bytes)?;
    if !name_before(last, name) {
        return Err(bad_at(FrameReason::Order, bytes));
    }
    Ok((name, rest))
}

#[tactic(auto, unfolding(crate::specs::Parts::value_at))]
pub fn value_of(bytes: &[u8]) -> Result<(Value, &[u8]), ReadError>
    ensures { Gives (λ x. (x.0, x.1.now)) result (value_at bytes.now) }
{
    let (count, rest) = byte_of(bytes)?;
    if count as usize > MAX_VALUE {
        return Err(bad_at(FrameReason::Range, bytes));
    }
    let (value, rest) = run_of(count as usize, rest)?;
    Ok((Value::of(value), rest))
}
