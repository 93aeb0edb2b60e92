//! Sums of amounts, by counter.
ghost use Rattle.std.specs.Prelude.{◌≡◌, ◌<◌, ◌++◌, ◌∷◌, [], List, length, map, OnOk, IsTrue};
ghost use Rattle.std.specs.Option.{unwrap_or};
ghost use Rattle.tcs_terms.specs.Order.{names_ascend};
ghost use Rattle.tcs_terms.specs.Payloads.{Accesses};
ghost use Rattle.counters.specs.declared.limits.TheConstants.{MAX_PAYLOADS};
ghost use Rattle.counters.specs.Sums.{AddsWrites, AreSums, sum_at};

use crate::amounts::{amount_of, is_counter};
use std::collections::BTreeMap;
use tcs_terms::{Name, OutOfMemory, Payload, WritePart};

/// The sum of the amounts that were added to each counter, in the order of names.
pub type Sums = BTreeMap<Name, u64>;

/// The sum that is kept of a counter, 0 where none is.
pub(crate) fn sum_at(sums: &Sums, name: &Name) -> u64
    ensures { result ≡ unwrap_or (sum_at sums.now name.now) 0 }
{
    match sums.get(name) {
        Some(sum) => *sum,
        None => 0,
    }
}

/// Adds the amount of a write, where it writes a counter.
fn add_write(sums: &mut Sums, write: &WritePart) -> Result<(), OutOfMemory>
    ensures { OnOk result (AddsWrites sums.old sums.new (write.now ∷ [])) }
{
    if is_counter(&write.name) {
        let sum = sum_at(sums, &write.name).saturating_add(amount_of(&write.value));
        sums.insert(write.name.again(), sum)?;
    }
    Ok(())
}

/// Adds the amounts of writes to different objects.
fn add_writes(sums: &mut Sums, writes: &[WritePart]) -> Result<(), OutOfMemory>
    requires { IsTrue (names_ascend (map (λ w. w.name) writes.now)) }
    ensures { OnOk result (AddsWrites sums.old sums.new writes.now) }
{
    for write in writes {
        add_write(sums, write)?;
    }
    Ok(())
}

/// Adds what a payload adds to counters. The sums are exact for up to `MAX_PAYLOADS` payloads.
pub fn add(sums: &mut Sums, payload: &Payload) -> Result<(), OutOfMemory>
    ensures { OnOk result ((before : List Accesses) → length before < MAX_PAYLOADS → AreSums sums.old before
        → AreSums sums.new (before ++ payload.now ∷ [])) }
{
    add_writes(sums, payload.writes())?;
    Ok(())
}
