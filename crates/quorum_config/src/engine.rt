//! `quorum`: an input in, the text of its run out, line by line.
ghost use Rattle.std.specs.Prelude.{◌≡◌, ◌≤◌, ◌<◌, ◌+◌, false, true, ℕ, List, [], Some, IfOk, OnOk, IfErr, IsErrOf};
ghost use Rattle.tcs_io.specs.Faults.{Rose};
ghost use Rattle.quorum_protocol.specs.declared.terms.Event.{Event};
ghost use Rattle.quorum_config.specs.Runs.{Ends, Finishes, IsInput, FirstBad, Stayed, RunsFully, StopsBy};
ghost use Rattle.quorum_config.specs.Walks.{is_ended, lines_left};
ghost use Rattle.quorum_config.specs.Standing.{IsAt, first_state};

use crate::stops::QuorumStop;
use crate::stores::Store;
use schedule_text::{Got, Lines};
use std::alloc::Global;
use tcs_io::{Sink, Source, write_all};
use tcs_terms::OutOfMemory;

/// What a run keeps: the bytes that were read ahead, the line in work, the reader and the world, how many lines were
/// taken, and the text that belongs to the line in work.
#[derive(Debug, Drop)]
pub(crate) struct Engine {
    pub(crate) lines: Lines,
    pub(crate) line: Vec<u8>,
    pub(crate) store: Store,
    pub(crate) number: u32,
    pub(crate) text: Vec<u8>,
}

/// Reads an input, and writes the text of its run.
///
/// Line by line: a line is read, checked, stepped and written before the next one is read, and of what follows it no
/// more is read than a line may have. The last line of the text is written once the input has ended.
///
/// # Errors
/// `Bad` names the first line that may not stand where it stands, from 1. `ReadFault` and `WriteFault` come only where
/// the source or the sink counted a fault. Each stop tells what was read and written by then, and the run up to it keeps
/// its promises.
pub fn quorum<S: Source, K: Sink>(
    alloc: Global,
    input: &mut S,
    output: &mut K,
) -> Result<(), QuorumStop>
    // What was read and written by then.
    ensures whole { (bytes before : List ℕ) → S.left input.old ≡ Some bytes → K.held output.old ≡ Some before
        → OnOk result (Finishes bytes before (S.left input.new) (K.held output.new)) }
    ensures stopped { (bytes before : List ℕ) → S.left input.old ≡ Some bytes → K.held output.old ≡ Some before
        → IfErr result (Ends bytes before (S.left input.new) (K.held output.new)) }

    // Which answer comes, where no fault was counted.
    ensures complete { (bytes before : List ℕ) → S.left input.old ≡ Some bytes → K.held output.old ≡ Some before
        → Stayed (S.faults input.old) (S.faults input.new) → Stayed (K.faults output.old) (K.faults output.new)
        → (acceptors : ℕ) (es : List Event) → IsInput bytes acceptors es → RunsFully result }
    ensures bad { (bytes before : List ℕ) → S.left input.old ≡ Some bytes → K.held output.old ≡ Some before
        → Stayed (S.faults input.old) (S.faults input.new) → Stayed (K.faults output.old) (K.faults output.new)
        → (number : ℕ) (es : List Event) → FirstBad bytes number es → StopsBy (QuorumStop.Bad number) result }

    // A fault is told only where it was counted.
    ensures read { S.faults input.old ≤ S.faults input.new }
    ensures wrote { K.faults output.old ≤ K.faults output.new }
    ensures read_fault { IsErrOf result QuorumStop.ReadFault → Rose (S.faults input.old) (S.faults input.new) }
    ensures write_fault { IsErrOf result QuorumStop.WriteFault → Rose (K.faults output.old) (K.faults output.new) }
{
    run_lines(alloc, input, output)
}

fn run_lines<S: Source, K: Sink>(
    alloc: Global,
    input: &mut S,
    output: &mut K,
) -> Result<(), QuorumStop>
    ensures whole { (bytes before : List ℕ) → S.left input.old ≡ Some bytes → K.held output.old ≡ Some before
        → OnOk result (Finishes bytes before (S.left input.new) (K.held output.new)) }
    ensures stopped { (bytes before : List ℕ) → S.left input.old ≡ Some bytes → K.held output.old ≡ Some before
        → IfErr result (Ends bytes before (S.left input.new) (K.held output.new)) }
    ensures read { S.faults input.old ≤ S.faults input.new }
    ensures wrote { K.faults output.old ≤ K.faults output.new }
    ensures read_fault { IsErrOf result QuorumStop.ReadFault → Rose (S.faults input.old) (S.faults input.new) }
    ensures write_fault { IsErrOf result QuorumStop.WriteFault → Rose (K.faults output.old) (K.faults output.new) }
{
    let mut engine = begin(alloc)?;
    'lines: while !engine.store.has_ended() {
        turn(&mut engine, input, output)?;
    }
    finish(&mut engine, input, output)
}

/// No line is taken yet.
fn begin(alloc: Global) -> Result<Engine, OutOfMemory>
    ensures lines { IfOk result (λ engine. engine.lines ≡ []) }
    ensures store { IfOk result (λ engine. engine.store ≡ first_state) }
    ensures number { IfOk result (λ engine. engine.number ≡ 0) }
{
    Ok(Engine {
        lines: Lines::begin(alloc)?,
        line: Vec::new(alloc),
        store: Store::first(alloc),
        number: 0,
        text: Vec::new(alloc),
    })
}

/// Takes the next line, and writes what belongs to it.
fn turn<S: Source, K: Sink>(
    engine: &mut Engine,
    input: &mut S,
    output: &mut K,
) -> Result<(), QuorumStop>
    requires open { is_ended engine.old.store.progress.place ≡ false }
    requires few { engine.old.number + lines_left engine.old.store.progress < 4294967295 }
    ensures goes { (bytes before : List ℕ) → IsAt bytes before engine.old.lines engine.old.number engine.old.store (S.left input.old) (K.held output.old)
        → OnOk result (IsAt bytes before engine.new.lines engine.new.number engine.new.store (S.left input.new) (K.held output.new)) }
    ensures stopped { (bytes before : List ℕ) → IsAt bytes before engine.old.lines engine.old.number engine.old.store (S.left input.old) (K.held output.old)
        → IfErr result (Ends bytes before (S.left input.new) (K.held output.new)) }
    ensures fewer { OnOk result (lines_left engine.new.store.progress < lines_left engine.old.store.progress) }
    ensures few { OnOk result (engine.new.number + lines_left engine.new.store.progress < 4294967295) }
    ensures read { S.faults input.old ≤ S.faults input.new }
    ensures wrote { K.faults output.old ≤ K.faults output.new }
    ensures read_fault { IsErrOf result QuorumStop.ReadFault → Rose (S.faults input.old) (S.faults input.new) }
    ensures write_fault { IsErrOf result QuorumStop.WriteFault → Rose (K.faults output.old) (K.faults output.new) }
{
    let number = engine.number + 1;
    let got = engine.lines.next_line(input, &mut engine.line)?;
    match got {
        Got::Whole => {}
        Got::Cut => return Err(QuorumStop::Bad(number)),
        Got::Long => return Err(QuorumStop::Bad(number)),
        Got::Nothing => return Err(QuorumStop::Bad(number)),
    }
    let fits = engine.store.take(&engine.line, &mut engine.text)?;
    if !fits {
        return Err(QuorumStop::Bad(number));
    }
    engine.number = number;
    write_all(output, &engine.text)?;
    Ok(())
}

/// Behind the last line the input ends, and the last line of the text is written.
fn finish<S: Source, K: Sink>(
    engine: &mut Engine,
    input: &mut S,
    output: &mut K,
) -> Result<(), QuorumStop>
    requires ended { is_ended engine.old.store.progress.place ≡ true }
    requires few { engine.old.number < 4294967295 }
    ensures whole { (bytes before : List ℕ) → IsAt bytes before engine.old.lines engine.old.number engine.old.store (S.left input.old) (K.held output.old)
        → OnOk result (Finishes bytes before (S.left input.new) (K.held output.new)) }
    ensures stopped { (bytes before : List ℕ) → IsAt bytes before engine.old.lines engine.old.number engine.old.store (S.left input.old) (K.held output.old)
        → IfErr result (Ends bytes before (S.left input.new) (K.held output.new)) }
    ensures read { S.faults input.old ≤ S.faults input.new }
    ensures wrote { K.faults output.old ≤ K.faults output.new }
    ensures read_fault { IsErrOf result QuorumStop.ReadFault → Rose (S.faults input.old) (S.faults input.new) }
    ensures write_fault { IsErrOf result QuorumStop.WriteFault → Rose (K.faults output.old) (K.faults output.new) }
{
    let number = engine.number + 1;
    let got = engine.lines.next_line(input, &mut engine.line)?;
    match got {
        Got::Nothing => {}
        Got::Whole => return Err(QuorumStop::Bad(number)),
        Got::Cut => return Err(QuorumStop::Bad(number)),
        Got::Long => return Err(QuorumStop::Bad(number)),
    }
    engine.store.put_end(&mut engine.text)?;
    write_all(output, &engine.text)?;
    Ok(())
}
