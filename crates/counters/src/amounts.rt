//! What a payload adds to a counter.
ghost use Rattle.std.specs.Prelude.{◌≡◌, find};
ghost use Rattle.std.specs.Option.{option_copied};
ghost use Rattle.tcs_terms.specs.Payloads.{same_name};
ghost use Rattle.cert_commute.specs.Commute.{is_counter};
ghost use Rattle.counters.specs.Amounts.{amount, amount_of};

use crate::limits::MAX_AMOUNT;
use tcs_terms::{Name, Payload, Value, WritePart};

/// Whether an object is a counter: its name begins with `n_`.
pub fn is_counter(name: &Name) -> bool
    ensures { result ≡ is_counter name.now }
{
    name.bytes().starts_with(b"n_")
}

/// The amount that a value stands for: the number of its 8 bytes, big-endian, where it has 8 and the number is at most
/// `MAX_AMOUNT`, else 0.
pub(crate) fn amount_of(value: &Value) -> u64
    ensures { result ≡ amount_of value.now }
{
    let bytes = value.bytes();
    if bytes.len() != 8 {
        return 0;
    }
    let number = u64::from_be_bytes([
        bytes[0], bytes[1], bytes[2], bytes[3], bytes[4], bytes[5], bytes[6], bytes[7],
    ]);
    if number <= MAX_AMOUNT { number } else { 0 }
}

/// The write of an object, if there is one.
fn written<'a>(writes: &'a [WritePart], name: &Name) -> Option<&'a WritePart>
    ensures { option_copied result ≡ find (λ w. same_name w.name name.now) writes.now }
{
    writes.iter().find(|w| w.name == *name)
}

/// The amount that a payload adds to an object: that of the value which it writes there, where the object is a counter
/// and the payload writes it, else 0.
pub fn amount(payload: &Payload, name: &Name) -> u64
    ensures { result ≡ amount payload.now name.now }
{
    if !is_counter(name) {
        return 0;
    }
    match written(payload.writes(), name) {
        Some(write) => amount_of(&write.value),
        None => 0,
    }
}
