//! The commands, one by one.
ghost use Rattle.std.specs.Prelude.{◌≡◌, ◌⊎◌, ◌≤◌, ℕ, List, Some};
ghost use Rattle.tcs_io.specs.Faults.{Rose};
ghost use Rattle.tcs_run.specs.Audited.{Audited};
ghost use Rattle.tcs_run.specs.Faults.{Quiet};
ghost use Rattle.tcs_run.specs.Generated.{Answers, Generated, Soaked};
ghost use Rattle.tcs_run.specs.Generations.{Seeded};
ghost use Rattle.tcs_run.specs.Replayed.{Replayed};
ghost use Rattle.tcs_run.specs.Restored.{Restored};
ghost use Rattle.tcs_run.specs.Stored.{Stored};
ghost use Rattle.tcs_run.specs.Totalled.{Totalled};

use crate::audits::audited;
use crate::command::Command;
use crate::quorums::stored;
use crate::replays::replayed;
use crate::restores::restored;
use crate::status::Status;
use crate::totals::totalled;
use crate::workloads::{generated, soaked};
use std::alloc::Global;
use tcs_io::{Sink, Source};

/// Does what a command is for.
pub(crate) fn perform<S: Source, K: Sink>(
    alloc: Global,
    command: Command,
    input: &mut S,
    output: &mut K,
) -> Status
    ensures replays { command ≡ Command.Replay
        → (bytes before : List ℕ) → S.left input.old ≡ Some bytes → K.held output.old ≡ Some before
        → Replayed bytes before (S.left input.new) (K.held output.new)
        (Quiet (S.faults input.old) (S.faults input.new) (K.faults output.old) (K.faults output.new)) result }
    ensures audits { command ≡ Command.Audit
        → (bytes before : List ℕ) → S.left input.old ≡ Some bytes → K.held output.old ≡ Some before
        → Audited bytes before (S.left input.new) (K.held output.new)
        (Quiet (S.faults input.old) (S.faults input.new) (K.faults output.old) (K.faults output.new)) result }
    ensures stores { command ≡ Command.Quorum
        → (bytes before : List ℕ) → S.left input.old ≡ Some bytes → K.held output.old ≡ Some before
        → Stored bytes before (S.left input.new) (K.held output.new)
        (Quiet (S.faults input.old) (S.faults input.new) (K.faults output.old) (K.faults output.new)) result }
    ensures totals { command ≡ Command.Totals
        → (bytes before : List ℕ) → S.left input.old ≡ Some bytes → K.held output.old ≡ Some before
        → Totalled bytes before (S.left input.new) (K.held output.new)
        (Quiet (S.faults input.old) (S.faults input.new) (K.faults output.old) (K.faults output.new)) result }
    ensures restores { command ≡ Command.Restore
        → (bytes before : List ℕ) → S.left input.old ≡ Some bytes → K.held output.old ≡ Some before
        → Restored bytes before (S.left input.new) (K.held output.new)
        (Quiet (S.faults input.old) (S.faults input.new) (K.faults output.old) (K.faults output.new)) result }
    ensures generates { (numbers : Seeded) → command ≡ Command.Generate numbers → (before : List ℕ) → K.held output.old ≡ Some before
        → Generated numbers before (K.held output.new) result }
    ensures soaks { (numbers : Seeded) → command ≡ Command.Soak numbers → (before : List ℕ) → K.held output.old ≡ Some before
        → Soaked numbers before (K.held output.new) result }
    ensures seeded { (numbers : Seeded) → (command ≡ Command.Generate numbers) ⊎ (command ≡ Command.Soak numbers)
        → (input.new ≡ input.old) × Answers numbers (Rose (K.faults output.old) (K.faults output.new) → ⊥) result }
    ensures known { result ≡ Status.BadWords → ⊥ }
    ensures read { S.faults input.old ≤ S.faults input.new }
    ensures wrote { K.faults output.old ≤ K.faults output.new }
    ensures read_fault { result ≡ Status.ReadFault → Rose (S.faults input.old) (S.faults input.new) }
    ensures write_fault { result ≡ Status.WriteFault → Rose (K.faults output.old) (K.faults output.new) }
{
    match command {
        Command::Replay => replayed(alloc, input, output),
        Command::Audit => audited(alloc, input, output),
        Command::Quorum => stored(alloc, input, output),
        Command::Totals => totalled(alloc, input, output),
        Command::Restore => restored(alloc, input, output),
        Command::Generate(numbers) => generated(alloc, numbers, output),
        Command::Soak(numbers) => soaked(alloc, numbers, output),
    }
}
