//! The input of an audit: the lines of a trace, taken one after the other.
ghost use Rattle.std.specs.Prelude.{◌≡◌, ◌≤◌, ◌<◌, ◌+◌, ℕ, false, List, ◌∷◌, Some, IfOk, OnOk, IsErrOf};
ghost use Rattle.tcs_io.specs.Faults.{Rose};
ghost use Rattle.audit_core.specs.Audits.{Ends, at_end};
ghost use Rattle.audit_core.specs.Steps.{IsFresh, IsCounted, Goes, Says, Takes, answer_behind};
ghost use Rattle.audit_core.specs.Texts.{is_too_long};

use crate::stops::AuditStop;
use crate::texts::{TextEnd, Texts};
use crate::told::History;
use judge::Verdict;
use std::alloc::Global;
use tcs_io::Source;
use tcs_terms::OutOfMemory;
use trace_text::{TraceFault, TraceReader};

/// What an audit keeps of its input: the bytes that were read ahead, the line in work, the reader, the history so far, and
/// how many bytes and lines were taken. Of the text nothing else is kept.
#[derive(Debug, Drop)]
pub(crate) struct Reading {
    pub(crate) texts: Texts,
    pub(crate) text: Vec<u8>,
    pub(crate) reader: TraceReader,
    pub(crate) history: History,
    pub(crate) used: u64,
    pub(crate) lines: u32,
}

impl Reading {
    /// No line is taken yet.
    fn begin(alloc: Global) -> Result<Reading, OutOfMemory>
        ensures { IfOk result IsFresh }
    {
        Ok(Reading {
            texts: Texts::begin(alloc)?,
            text: Vec::new(alloc),
            reader: TraceReader::new(),
            history: History::new(alloc),
            used: 0,
            lines: 0,
        })
    }

    /// Takes the next line, or gives the verdict at the end of the input.
    fn next<S: Source>(
        &mut self,
        alloc: Global,
        input: &mut S,
    ) -> Result<Option<Verdict>, AuditStop>
        requires { IsCounted self.old }
        ensures goes { (rest : List ℕ) → S.left input.old ≡ Some rest → Goes self.old rest self.new (S.left input.new) result }
        ensures counted { IfOk result (λ end. IsCounted self.new × (end ≡ None → self.old.used < self.new.used)) }
        ensures fault { IsErrOf result AuditStop.ReadFault → Rose (S.faults input.old) (S.faults input.new) }
        ensures reads { IsErrOf result AuditStop.WriteFault → ⊥ }
        ensures count { S.faults input.old ≤ S.faults input.new }
    {
        match self.texts.next_text(input, &mut self.text, self.used)? {
            TextEnd::Long => Err(AuditStop::BadTrace(self.lines + 1)),
            TextEnd::Ended => Ok(Some(self.end(alloc)?)),
            TextEnd::Whole => {
                self.take(alloc)?;
                Ok(None)
            }
        }
    }

    /// Takes the line in work.
    fn take(&mut self, alloc: Global) -> Result<(), AuditStop>
        requires counted { IsCounted self.old }
        requires short { is_too_long self.old.used self.old.text.items ≡ false }
        ensures takes { Takes (λ texts rest. answer_behind self.old (self.old.text.items ∷ texts) rest) self.new result }
        ensures counted { OnOk result (IsCounted self.new × (self.old.used < self.new.used)) }
        ensures texts { OnOk result (self.new.texts ≡ self.old.texts) }
        ensures fault { IsErrOf result AuditStop.ReadFault → ⊥ }
        ensures reads { IsErrOf result AuditStop.WriteFault → ⊥ }
    {
        let item = match self.reader.take(alloc, &self.text) {
            Ok(item) => item,
            Err(TraceFault::Bad) => return Err(AuditStop::BadTrace(self.lines + 1)),
            Err(TraceFault::OutOfMemory) => return Err(AuditStop::OutOfMemory),
        };
        self.history.hear(item)?;
        self.used += self.text.len() as u64 + 1;
        self.lines += 1;
        Ok(())
    }

    /// The verdict at the end of the input, where the line in work has the bytes behind the last line feed.
    fn end(&self, alloc: Global) -> Result<Verdict, AuditStop>
        requires { IsCounted self.now }
        ensures says { Says (at_end self.now.history.ended self.now.history self.now.lines self.now.text.items) result }
        ensures fault { IsErrOf result AuditStop.ReadFault → ⊥ }
        ensures reads { IsErrOf result AuditStop.WriteFault → ⊥ }
    {
        if self.history.is_ended() && self.text.is_empty() {
            Ok(self.history.judge(alloc)?)
        } else {
            Err(AuditStop::BadTrace(self.lines + 1))
        }
    }
}

/// Reads a trace to its end, line by line, and gives the verdict on it.
pub(crate) fn verdict_on<S: Source>(alloc: Global, input: &mut S) -> Result<Verdict, AuditStop>
    ensures ends { (bytes : List ℕ) → S.left input.old ≡ Some bytes → Ends bytes (S.left input.new) result }
    ensures fault { IsErrOf result AuditStop.ReadFault → Rose (S.faults input.old) (S.faults input.new) }
    ensures reads { IsErrOf result AuditStop.WriteFault → ⊥ }
    ensures count { S.faults input.old ≤ S.faults input.new }
{
    let mut reading = Reading::begin(alloc)?;
    'lines: loop {
        if let Some(verdict) = reading.next(alloc, input)? {
            return Ok(verdict);
        }
    }
}
