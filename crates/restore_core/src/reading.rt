//! The input of a restore: the lines of a backup file, taken one after the other.
ghost use Rattle.std.specs.Prelude.{◌≡◌, ◌≤◌, ◌<◌, ◌+◌, ℕ, true, false, List, [], ◌∷◌, Some, IfOk, OnOk, IsErrOf};
ghost use Rattle.tcs_io.specs.Faults.{Rose};
ghost use Rattle.restore_core.specs.Files.{AreRestored, BadLine, Restores, answer_of};
ghost use Rattle.restore_core.specs.Steps.{IsFresh, IsBehind, Goes, Says, Takes, ends_here, ended_with, kept_with};

use crate::stops::RestoreStop;
use backup_machine::Kept;
use backup_text::limits::MAX_LINE;
use backup_text::{BackupItem, BackupLineFault, BackupReader};
use long_lines::{TextEnd, Texts};
use std::alloc::Global;
use tcs_io::Source;
use tcs_terms::OutOfMemory;

/// What is kept of a file that is read: the bytes that were read ahead, the line in work, the reader, the objects so far,
/// whether the last line came, and how many lines were taken.
#[derive(Debug, Drop)]
pub(crate) struct Reading {
    pub(crate) texts: Texts,
    pub(crate) text: Vec<u8>,
    pub(crate) reader: BackupReader,
    pub(crate) kept: Vec<Kept>,
    pub(crate) ended: bool,
    pub(crate) lines: u32,
}

/// Keeps what a line says.
fn hear(item: BackupItem, kept: &mut Vec<Kept>, ended: &mut bool) -> Result<(), OutOfMemory>
    ensures kept { OnOk result (kept.new.items ≡ kept_with kept.old.items item) }
    ensures ended { OnOk result (ended.new ≡ ended_with ended.old item) }
{
    match item {
        BackupItem::Object(object) => kept.push(object)?,
        BackupItem::End => *ended = true,
        BackupItem::Head => {}
        BackupItem::Call => {}
        BackupItem::Place(_) => {}
    }
    Ok(())
}

impl Reading {
    /// No line is taken yet.
    fn begin(alloc: Global) -> Result<Reading, OutOfMemory>
        ensures { IfOk result IsFresh }
    {
        Ok(Reading {
            texts: Texts::begin(alloc)?,
            text: Vec::new(alloc),
            reader: BackupReader::new(),
            kept: Vec::new(alloc),
            ended: false,
            lines: 0,
        })
    }

    /// Takes the next line, and answers whether there was one: else the file has ended.
    fn next<S: Source>(&mut self, alloc: Global, input: &mut S) -> Result<bool, RestoreStop>
        requires { IsBehind self.old }
        ensures goes { (rest : List ℕ) → S.left input.old ≡ Some rest → Goes self.old rest self.new (S.left input.new) result }
        ensures behind { OnOk result (IsBehind self.new) }
        ensures more { IfOk result (λ taken. taken ≡ true → self.new.lines ≡ self.old.lines + 1) }
        ensures fault { IsErrOf result RestoreStop.ReadFault → Rose (S.faults input.old) (S.faults input.new) }
        ensures reads { IsErrOf result RestoreStop.WriteFault → ⊥ }
        ensures count { S.faults input.old ≤ S.faults input.new }
    {
        match self.texts.next_text(input, &mut self.text, MAX_LINE)? {
            TextEnd::Long => Err(RestoreStop::BadBackup(self.lines + 1)),
            TextEnd::Ended => {
                self.end()?;
                Ok(false)
            }
            TextEnd::Whole => {
                self.take(alloc)?;
                Ok(true)
            }
        }
    }

    /// Takes the line in work.
    fn take(&mut self, alloc: Global) -> Result<(), RestoreStop>
        requires { IsBehind self.old }
        ensures takes { Takes self.old self.new result }
        ensures behind { OnOk result (IsBehind self.new) }
        ensures more { OnOk result (self.new.lines ≡ self.old.lines + 1) }
        ensures texts { OnOk result (self.new.texts ≡ self.old.texts) }
        ensures fault { IsErrOf result RestoreStop.ReadFault → ⊥ }
        ensures reads { IsErrOf result RestoreStop.WriteFault → ⊥ }
    {
        let item = match self.reader.take(alloc, &self.text) {
            Ok(item) => item,
            Err(BackupLineFault::Bad) => return Err(RestoreStop::BadBackup(self.lines + 1)),
            Err(BackupLineFault::OutOfMemory) => return Err(RestoreStop::OutOfMemory),
        };
        hear(item, &mut self.kept, &mut self.ended)?;
        self.lines += 1;
        Ok(())
    }

    /// The end of the input, where the line in work has the bytes behind the last line feed.
    fn end(&self) -> Result<(), RestoreStop>
        requires { IsBehind self.now }
        ensures says { Says self.now.kept.items (ends_here self.now self.now.text.items) result }
        ensures fault { IsErrOf result RestoreStop.ReadFault → ⊥ }
        ensures reads { IsErrOf result RestoreStop.WriteFault → ⊥ }
    {
        if self.ended && self.text.is_empty() {
            Ok(())
        } else {
            Err(RestoreStop::BadBackup(self.lines + 1))
        }
    }
}

/// Reads a file to its end, line by line, and gives its objects.
pub(crate) fn read_file<S: Source>(alloc: Global, input: &mut S) -> Result<Vec<Kept>, RestoreStop>
    ensures file { (bytes : List ℕ) → S.left input.old ≡ Some bytes
        → IfOk result (λ kept. (answer_of bytes ≡ Restores kept.items) × (S.left input.new ≡ Some [])) }
    ensures bad { (bytes : List ℕ) → S.left input.old ≡ Some bytes
        → (line : ℕ) → IsErrOf result (RestoreStop.BadBackup line) → answer_of bytes ≡ BadLine line }
    ensures kept { IfOk result (λ kept. AreRestored kept.items) }
    ensures fault { IsErrOf result RestoreStop.ReadFault → Rose (S.faults input.old) (S.faults input.new) }
    ensures reads { IsErrOf result RestoreStop.WriteFault → ⊥ }
    ensures count { S.faults input.old ≤ S.faults input.new }
{
    let mut reading = Reading::begin(alloc)?;
    'lines: loop {
        if !reading.next(alloc, input)? {
            return Ok(reading.kept);
        }
    }
}
