//! The input of a replay: the lines of a schedule, taken one after the other.
ghost use Rattle.std.specs.Prelude.{◌≡◌, ◌+◌, ◌<◌, ◌≤◌, [], IfOk, IfErr, IsErrOf};
ghost use Rattle.tcs_io.specs.Faults.{Rose};
ghost use Rattle.schedule_text.specs.Schedules.{at_start};
ghost use Rattle.replay_core.specs.Standing.{Takes, Refuses};

use crate::stops::ReplayStop;
use schedule_text::{LineFault, LineItem, LineReader, Lines};
use std::alloc::Global;
use tcs_io::Source;
use tcs_terms::OutOfMemory;

/// What a program keeps of a schedule that it reads: the bytes that were read ahead, the line in work, the reader, and
/// how many lines were taken. A replay and each other program that runs a schedule read by it.
#[derive(Debug, Drop)]
pub struct Reading {
    /// What was read of the input and not yet taken, at most 4,097 bytes.
    pub lines: Lines,
    /// The line that was taken last, without its line feed.
    pub line: Vec<u8>,
    /// Where the lines so far stand in the grammar, and the setup that they make.
    pub reader: LineReader,
    /// How many lines were taken.
    pub number: u32,
}

impl Reading {
    /// No line is taken yet.
    pub fn begin(alloc: Global) -> Result<Reading, OutOfMemory>
        ensures { IfOk result (λ r. (r.lines ≡ []) × (r.reader ≡ at_start) × (r.number ≡ 0)) }
    {
        Ok(Reading {
            lines: Lines::begin(alloc)?,
            line: Vec::new(alloc),
            reader: LineReader::new(alloc),
            number: 0,
        })
    }

    /// Takes the next line, or the end of the input.
    ///
    /// # Errors
    /// `Bad` where the line may not stand here, with its number and reason; `ReadFault` only where the source counted a
    /// fault.
    pub fn take<S: Source>(&mut self, input: &mut S) -> Result<LineItem, ReplayStop>
        requires { self.old.number < 4294967295 }
        ensures item { IfOk result (λ item. Takes self.old self.new item (S.left input.old) (S.left input.new)) }
        ensures stop { IfErr result (Refuses self.old (S.left input.old) (S.left input.new)) }
        ensures count { S.faults input.old ≤ S.faults input.new }
        ensures fault { IsErrOf result ReplayStop.ReadFault → Rose (S.faults input.old) (S.faults input.new) }
    {
        let number = self.number + 1;
        let got = self.lines.next_line(input, &mut self.line)?;
        match self.reader.take(got, &self.line) {
            Ok(item) => {
                self.number = number;
                Ok(item)
            }
            Err(LineFault::Bad(reason)) => Err(ReplayStop::Bad {
                line: number,
                reason,
            }),
            Err(LineFault::OutOfMemory) => Err(ReplayStop::OutOfMemory),
        }
    }
}
