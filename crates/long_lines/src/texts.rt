//! Lines of any length up to a limit that the caller names, put together of the pieces that a reader of short lines hands out.
ghost use Rattle.std.specs.Prelude.{◌≡◌, ℕ, ◌≤◌, false, ◌++◌, List, [], Some, IfOk, IsErrOf, if◌then◌else◌};
ghost use Rattle.tcs_io.specs.Faults.{Rose};
ghost use Rattle.long_lines.specs.Texts.{Appends, Yields, is_too_long};

use schedule_text::{Got, Lines, LinesStop};
use std::alloc::Global;
use std::marker::Model;
use tcs_io::Source;
use tcs_terms::OutOfMemory;

/// How a text ended.
#[derive(Clone, Copy, Debug, PartialEq, Eq)]
pub enum TextEnd {
    /// A line feed ends it.
    Whole,
    /// It has more bytes than a line may have. It may be a front of the line, and lines behind it are not to be read.
    Long,
    /// The input ended. These are the bytes behind the last line feed.
    Ended,
}

/// Whether a line has too many bytes.
fn is_too_long(most: usize, text: &[u8]) -> bool
    ensures { result ≡ is_too_long most text.now }
{
    text.len() > most
}

/// How a text ended that a line feed ends.
fn end_of_whole(most: usize, text: &[u8]) -> TextEnd
    ensures { result ≡ (if is_too_long most text.now then TextEnd.Long else TextEnd.Whole) }
{
    if is_too_long(most, text) {
        TextEnd::Long
    } else {
        TextEnd::Whole
    }
}

/// Reads lines, of which each is put together of pieces. Seen as the bytes that it has read and not yet handed out.
#[derive(Debug, Drop)]
pub struct Texts {
    lines: Lines,
    piece: Vec<u8>,
}

impl Model for Texts {
    ghost use Rattle.std.specs.Prelude.{List, ℕ};

    ghost Value = { List ℕ };

    ghost view = { λ t. t.lines };
}

impl Texts {
    /// Holds nothing yet.
    pub fn begin(alloc: Global) -> Result<Texts, OutOfMemory>
        ensures { IfOk result (λ texts. texts ≡ []) }
    {
        Ok(Texts {
            lines: Lines::begin(alloc)?,
            piece: Vec::new(alloc),
        })
    }

    /// Appends the next piece of a line.
    fn next_piece<S: Source>(
        &mut self,
        source: &mut S,
        text: &mut Vec<u8>,
    ) -> Result<Got, LinesStop>
        ensures piece { IfOk result (λ got. Appends got text.old.items text.new.items self.old self.new (S.left source.old) (S.left source.new)) }
        ensures fault { IsErrOf result LinesStop.ReadFault → Rose (S.faults source.old) (S.faults source.new) }
        ensures count { S.faults source.old ≤ S.faults source.new }
    {
        let got = self.lines.next_line(source, &mut self.piece)?;
        text.extend_from_slice(&self.piece)?;
        Ok(got)
    }

    /// Puts the next line, of at most so many bytes without its line feed, in place of what `text` holds.
    ///
    /// # Errors
    /// `ReadFault` comes only where the source counted a fault. After an error the line is lost.
    pub fn next_text<S: Source>(
        &mut self,
        source: &mut S,
        text: &mut Vec<u8>,
        most: usize,
    ) -> Result<TextEnd, LinesStop>
        ensures bytes { (rest : List ℕ) → S.left source.old ≡ Some rest
            → IfOk result (λ end. Yields most end (self.old ++ rest) text.new.items self.new (S.left source.new)) }
        ensures fault { IsErrOf result LinesStop.ReadFault → Rose (S.faults source.old) (S.faults source.new) }
        ensures count { S.faults source.old ≤ S.faults source.new }
    {
        text.clear();
        'pieces: loop {
            match self.next_piece(source, text)? {
                Got::Cut | Got::Nothing => return Ok(TextEnd::Ended),
                Got::Whole => return Ok(end_of_whole(most, text)),
                Got::Long => {
                    if is_too_long(most, text) {
                        return Ok(TextEnd::Long);
                    }
                }
            }
        }
    }
}
