//! The lines that tell what counters are worth.
ghost use Rattle.std.specs.Prelude.{◌≡◌, ◌≤◌, ◌++◌, codes, decimal, false, ℕ, List, Some, length, IfOk, OnOk, IfErr, IsErrOf};
ghost use Rattle.std.specs.List.{flat_map};
ghost use Rattle.tcs_io.specs.Faults.{Rose};
ghost use Rattle.protocol_laws.specs.Promises.{world_of};
ghost use Rattle.counters.specs.Histories.{AreTotals};
ghost use Rattle.totals_core.specs.Holdings.{IsCountable, held_by};
ghost use Rattle.totals_core.specs.Progressing.{Tells, TellsInPart, AreFew};
ghost use Rattle.totals_core.specs.Telling.{IsTold, end_line, total_line};

use crate::holdings::{Holding, greatest, holdings};
use counters::{Sums, Totals};
use replay_core::ReplayStop;
use std::alloc::Global;
use tcs_io::{Sink, write_all};
use tcs_laws::VoteGuard;
use tcs_terms::{Name, Note, OutOfMemory};
use text_words::{put, put_number};
use world::World;

/// Writes the line of each counter to which a committed transaction adds, names ascending, and then their number.
pub(crate) fn tell<G: VoteGuard, K: Sink>(
    alloc: Global,
    world: &World<G>,
    output: &mut K,
) -> Result<(), ReplayStop>
    requires lives { world.now.spent ≡ false }
    requires countable { IsCountable (world_of world.now.progress) }
    requires some { 1 ≤ world.now.setup.shards }
    ensures whole { (before : List ℕ) → K.held output.old ≡ Some before
        → OnOk result (Tells world.now.setup.shards (world_of world.now.progress) before (K.held output.new)) }
    ensures stopped { (before : List ℕ) → K.held output.old ≡ Some before
        → IfErr result (TellsInPart world.now.setup.shards (world_of world.now.progress) before (K.held output.new)) }
    ensures wrote { K.faults output.old ≤ K.faults output.new }
    ensures write_fault { IsErrOf result ReplayStop.WriteFault → Rose (K.faults output.old) (K.faults output.new) }
    ensures read_fault { IsErrOf result ReplayStop.ReadFault → ⊥ }
{
    let text = text_of(alloc, world)?;
    write_all(output, &text)?;
    Ok(())
}

/// The text that is told of a world.
fn text_of<G: VoteGuard>(alloc: Global, world: &World<G>) -> Result<Vec<u8>, OutOfMemory>
    requires lives { world.now.spent ≡ false }
    requires countable { IsCountable (world_of world.now.progress) }
    requires some { 1 ≤ world.now.setup.shards }
    ensures { IfOk result (λ text. IsTold world.now.setup.shards (world_of world.now.progress) text.items) }
{
    let totals = totals_of(alloc, world.history())?;
    let holdings = holdings(alloc, world)?;
    let mut text = Vec::new(alloc);
    let sums = totals.sums();
    put_totals(sums, &holdings, world.setup().shards(), &mut text)?;
    put_end(sums.len() as u64, &mut text)?;
    Ok(text)
}

/// The totals of a history.
fn totals_of(alloc: Global, history: &[Note]) -> Result<Totals, OutOfMemory>
    requires { AreFew history.now }
    ensures { IfOk result (λ totals. AreTotals totals history.now) }
{
    let mut totals = Totals::new(alloc);
    for note in history {
        totals.saw(alloc, note)?;
    }
    Ok(totals)
}

/// Appends the line of each counter.
fn put_totals(
    sums: &Sums,
    holdings: &[Holding],
    shards: u8,
    text: &mut Vec<u8>,
) -> Result<(), OutOfMemory>
    requires some { 1 ≤ shards }
    ensures { OnOk result (text.new.items
        ≡ text.old.items ++ flat_map (total_line (held_by shards holdings.now)) sums.now.entries) }
{
    for (name, sum) in sums.iter() {
        put_total(name, *sum, greatest(holdings, shards, name), text)?;
    }
    Ok(())
}

/// Appends the line of a counter.
fn put_total(name: &Name, sum: u64, held: u64, text: &mut Vec<u8>) -> Result<(), OutOfMemory>
    ensures { OnOk result (text.new.items ≡ text.old.items ++ total_line (λ other. held) (name.now, sum)) }
{
    put(text, b"total ")?;
    put(text, name.bytes())?;
    put(text, b" ")?;
    put_number(text, sum)?;
    put_held(held, text)
}

/// Appends the end of the line of a counter.
fn put_held(held: u64, text: &mut Vec<u8>) -> Result<(), OutOfMemory>
    ensures { OnOk result (text.new.items ≡ text.old.items ++ codes " " ++ decimal held ++ codes "\n") }
{
    put(text, b" ")?;
    put_number(text, held)?;
    put(text, b"\n")
}

/// Appends the last line.
fn put_end(count: u64, text: &mut Vec<u8>) -> Result<(), OutOfMemory>
    ensures { OnOk result (text.new.items ≡ text.old.items ++ end_line count) }
{
    put(text, b"end ")?;
    put_number(text, count)?;
    put(text, b"\n")
}
