//! Lines of any length up to a limit, put together of the pieces that a reader of short lines hands out.
ghost use Rattle.std.specs.Prelude.{◌≡◌, ℕ, ◌≤◌, false, ◌++◌, List, [], Some, IfOk, IsErrOf, if◌then◌else◌};
ghost use Rattle.tcs_io.specs.Faults.{Rose};
ghost use Rattle.audit_core.specs.declared.limits.TheConstants.{MAX_TRACE};
ghost use Rattle.audit_core.specs.Texts.{Appends, Yields, is_too_long};

use crate::limits::{MAX_LINE, MAX_TRACE};
use crate::stops::AuditStop;
use schedule_text::{Got, Lines};
use std::alloc::Global;
use std::marker::Model;
use tcs_io::Source;
use tcs_terms::OutOfMemory;

/// How a text ended.
#[derive(Clone, Copy, Debug, PartialEq, Eq)]
pub(crate) enum TextEnd {
    /// A line feed ends it.
    Whole,
    /// It has more bytes than a line may have, or than may still stand in a trace.
    Long,
    /// The input ended. These are the bytes behind the last line feed.
    Ended,
}

/// Whether a line has too many bytes, or passes the limit on a trace with its line feed.
fn is_too_long(used: u64, text: &[u8]) -> bool
    requires { used ≤ MAX_TRACE }
    ensures { result ≡ is_too_long used text.now }
{
    let count = text.len();
    count > MAX_LINE || used + count as u64 + 1 > MAX_TRACE
}

/// How a text ended that a line feed ends.
fn end_of_whole(used: u64, text: &[u8]) -> TextEnd
    requires { used ≤ MAX_TRACE }
    ensures { result ≡ (if is_too_long used text.now then TextEnd.Long else TextEnd.Whole) }
{
    if is_too_long(used, text) {
        TextEnd::Long
    } else {
        TextEnd::Whole
    }
}

/// Reads lines, of which each is put together of pieces. Seen as the bytes that it has read and not yet handed out.
#[derive(Debug, Drop)]
pub(crate) struct Texts {
    lines: Lines,
    piece: Vec<u8>,
}

impl Model for Texts {
    ghost use Rattle.std.specs.Prelude.{List, ℕ};

    ghost Value = { List ℕ };

    ghost view = { λ t. t.lines };
}

impl Texts {
    /// Holds nothing yet.
    pub(crate) fn begin(alloc: Global) -> Result<Texts, OutOfMemory>
        ensures { IfOk result (λ texts. texts ≡ []) }
    {
        Ok(Texts {
            lines: Lines::begin(alloc)?,
            piece: Vec::new(alloc),
        })
    }

    /// Appends the next piece of a line.
    fn next_piece<S: Source>(
        &mut self,
        source: &mut S,
        text: &mut Vec<u8>,
    ) -> Result<Got, AuditStop>
        ensures piece { IfOk result (λ got. Appends got text.old.items text.new.items self.old self.new (S.left source.old) (S.left source.new)) }
        ensures fault { IsErrOf result AuditStop.ReadFault → Rose (S.faults source.old) (S.faults source.new) }
        ensures reads { IsErrOf result AuditStop.WriteFault → ⊥ }
        ensures bad { (line : ℕ) → IsErrOf result (AuditStop.BadTrace line) → ⊥ }
        ensures count { S.faults source.old ≤ S.faults source.new }
    {
        let got = self.lines.next_line(source, &mut self.piece)?;
        text.extend_from_slice(&self.piece)?;
        Ok(got)
    }

    /// Puts the next line in place of what `text` holds. `used` are the bytes before it. It keeps no more than the line.
    ///
    /// `ReadFault` comes only where the source counted a fault.
    pub(crate) fn next_text<S: Source>(
        &mut self,
        source: &mut S,
        text: &mut Vec<u8>,
        used: u64,
    ) -> Result<TextEnd, AuditStop>
        requires { used ≤ MAX_TRACE }
        ensures bytes { (rest : List ℕ) → S.left source.old ≡ Some rest
            → IfOk result (λ end. Yields end used (self.old ++ rest) text.new.items self.new (S.left source.new)) }
        ensures short { IfOk result (λ end. end ≡ TextEnd.Whole → is_too_long used text.new.items ≡ false) }
        ensures fault { IsErrOf result AuditStop.ReadFault → Rose (S.faults source.old) (S.faults source.new) }
        ensures reads { IsErrOf result AuditStop.WriteFault → ⊥ }
        ensures bad { (line : ℕ) → IsErrOf result (AuditStop.BadTrace line) → ⊥ }
        ensures count { S.faults source.old ≤ S.faults source.new }
    {
        text.clear();
        'pieces: loop {
            match self.next_piece(source, text)? {
                Got::Cut | Got::Nothing => return Ok(TextEnd::Ended),
                Got::Whole => return Ok(end_of_whole(used, text)),
                Got::Long => {
                    if is_too_long(used, text) {
                        return Ok(TextEnd::Long);
                    }
                }
            }
        }
    }
}
