//! The program, over any source and any sink.
ghost use Rattle.std.specs.Prelude.{◌≡◌, ◌⊎◌, ◌≤◌, ℕ, List, Some};
ghost use Rattle.tcs_io.specs.Faults.{Rose};
ghost use Rattle.replay_core.specs.Replays.{Finishes};
ghost use Rattle.tcs_run.specs.declared.command.Command.{Command};
ghost use Rattle.tcs_run.specs.Commands.{Names};
ghost use Rattle.tcs_run.specs.Audited.{Audited};
ghost use Rattle.tcs_run.specs.Faults.{Quiet};
ghost use Rattle.tcs_run.specs.Generated.{Answers, Generated, Soaked};
ghost use Rattle.tcs_run.specs.Generations.{Seeded};
ghost use Rattle.tcs_run.specs.Replayed.{Replayed};
ghost use Rattle.tcs_run.specs.Restored.{Restored};
ghost use Rattle.tcs_run.specs.Stored.{Stored};
ghost use Rattle.tcs_run.specs.Totalled.{Totalled};

use crate::command::Command;
use crate::performing::perform;
use crate::status::Status;
use std::alloc::Global;
use tcs_io::{Sink, Source};

/// Does what the words say, which are those behind the program's own name, and answers how that ended.
///
/// `replay` reads a schedule from the input, and writes the trace of its run to the output. One line after the other is
/// read, checked, stepped and written, and what is refused first in this order of work ends the run. `audit` reads a trace to
/// its end, and writes the verdict on the history that it tells. `quorum` reads events of a quorum store, and writes the
/// text of their run, line by line as `replay` does. `totals` reads a schedule by the rule in which additions commute, and
/// writes what the counters of its run are worth. `restore` reads a backup file, and writes the schedule that puts its objects
/// back. `gen` writes the schedule that two numbers make, and `soak` what the run
/// of this schedule comes to; they read nothing.
pub fn run<S: Source, K: Sink>(
    alloc: Global,
    words: &[String],
    input: &mut S,
    output: &mut K,
) -> Status
    // ---- The words are bad exactly where they name no command, and then nothing is read or written.
    ensures unnamed { ((command : Command) → Names command words.now → ⊥) → result ≡ Status.BadWords }
    ensures named { (command : Command) → Names command words.now → result ≡ Status.BadWords → ⊥ }
    ensures idle { result ≡ Status.BadWords → (input.new ≡ input.old) × (output.new ≡ output.old) }

    // ---- `replay`

    // The headline. With `Ok` the bytes were the text of a schedule, they were read to their end, and the output took the
    // trace of the run of this schedule. No step of the run passed the limit, and the run keeps its promises, by the tests
    // of the rule that the schedule names:
    //   - each decision stands behind the beginning of its transaction, and all decisions of one transaction are equal, the
    //     shard and the cause of an abort included;
    //   - the committed transactions, in the order of their first decisions, are each passed by the certification function
    //     against all before it, and this order keeps real time;
    //   - an abort by a clash names a transaction that began before and clashes with this one in the named shard, and an abort
    //     of a lost transaction names a shard in which a take-over had found nothing of it by then;
    //   - whatever messages, rows and kept outcomes tell of a decision tells one that was taken;
    //   - where the rule orders writes, the commit versions of the writers of an object rise along that order; where it checks
    //     reads, and reads were honest, the committed transactions behave as on one copy of the data.
    ensures headline { Names Command.Replay words.now
        → (bytes before : List ℕ) → S.left input.old ≡ Some bytes → K.held output.old ≡ Some before
        → result ≡ Status.Ok → Finishes bytes before (S.left input.new) (K.held output.new) }

    // With each other status what was read and written by then, and which status comes.
    ensures replays { Names Command.Replay words.now
        → (bytes before : List ℕ) → S.left input.old ≡ Some bytes → K.held output.old ≡ Some before
        → Replayed bytes before (S.left input.new) (K.held output.new)
        (Quiet (S.faults input.old) (S.faults input.new) (K.faults output.old) (K.faults output.new)) result }

    // ---- `audit`

    // With `Ok` and `Incorrect` the bytes are a trace, and the output took the one line of the verdict on its history: that all
    // clauses of a correct history hold, and the order that it tells is that of its commits; or the first clause that fails,
    // and where. With each other status what was read and written by then, and which status comes.
    ensures audits { Names Command.Audit words.now
        → (bytes before : List ℕ) → S.left input.old ≡ Some bytes → K.held output.old ≡ Some before
        → Audited bytes before (S.left input.new) (K.held output.new)
        (Quiet (S.faults input.old) (S.faults input.new) (K.faults output.old) (K.faults output.new)) result }

    // ---- `quorum`

    // With `Ok` the output took the text of the run of the events that the bytes tell. In that run any two stored notes of one
    // shard and epoch have equal configurations, each of them was proposed before, and a proposer stores an epoch above 2 of
    // a shard only after the one below. With each other status what was read and written by then, and which status comes.
    ensures stores { Names Command.Quorum words.now
        → (bytes before : List ℕ) → S.left input.old ≡ Some bytes → K.held output.old ≡ Some before
        → Stored bytes before (S.left input.new) (K.held output.new)
        (Quiet (S.faults input.old) (S.faults input.new) (K.faults output.old) (K.faults output.new)) result }

    // ---- `totals`

    // With `Ok` the bytes were the text of a schedule by the rule in which additions commute, and the output took a line for
    // each counter to which a committed transaction of its run adds: the sum over the order of commits, and the greatest
    // that a node of the counter's shard holds, which is at most that sum. With each other status what was read and written
    // by then, and which status comes.
    ensures totals { Names Command.Totals words.now
        → (bytes before : List ℕ) → S.left input.old ≡ Some bytes → K.held output.old ≡ Some before
        → Totalled bytes before (S.left input.new) (K.held output.new)
        (Quiet (S.faults input.old) (S.faults input.new) (K.faults output.old) (K.faults output.new)) result }

    // ---- `restore`

    // With `Ok` the bytes are a backup file, and the output took the text of a schedule. After the run of that schedule the one
    // copy of the data has exactly the objects of the file. With each other status what was written by then, and which
    // status comes.
    ensures restores { Names Command.Restore words.now
        → (bytes before : List ℕ) → S.left input.old ≡ Some bytes → K.held output.old ≡ Some before
        → Restored bytes before (S.left input.new) (K.held output.new)
        (Quiet (S.faults input.old) (S.faults input.new) (K.faults output.old) (K.faults output.new)) result }

    // ---- `gen` and `soak`

    // With `Ok` the output took the text of the schedule that the two numbers make (`gen`), or the five counts of its run
    // (`soak`). That run keeps its promises, all its reads are honest, and its committed transactions behave as on one copy of
    // the data, for every seed and count.
    ensures generates { (numbers : Seeded) → Names (Command.Generate numbers) words.now
        → (before : List ℕ) → K.held output.old ≡ Some before → Generated numbers before (K.held output.new) result }
    ensures soaks { (numbers : Seeded) → Names (Command.Soak numbers) words.now
        → (before : List ℕ) → K.held output.old ≡ Some before → Soaked numbers before (K.held output.new) result }

    // Nothing is read, and which status comes.
    ensures seeded { (numbers : Seeded) → Names (Command.Generate numbers) words.now ⊎ Names (Command.Soak numbers) words.now
        → (input.new ≡ input.old) × Answers numbers (Rose (K.faults output.old) (K.faults output.new) → ⊥) result }

    // ---- A fault is told only where it was counted.
    ensures read { S.faults input.old ≤ S.faults input.new }
    ensures wrote { K.faults output.old ≤ K.faults output.new }
    ensures read_fault { result ≡ Status.ReadFault → Rose (S.faults input.old) (S.faults input.new) }
    ensures write_fault { result ≡ Status.WriteFault → Rose (K.faults output.old) (K.faults output.new) }
{
    match Command::named(words) {
        None => Status::BadWords,
        Some(command) => perform(alloc, command, input, output),
    }
}
