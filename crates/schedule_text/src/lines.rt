//! Lines of bytes, one after the other, from a source.
ghost use Rattle.std.specs.Prelude.{◌≡◌, ℕ, ◌+◌, ◌-◌, ◌<◌, ◌≤◌, List, [], ◌++◌, Option, None, Some, Ok, length, take, drop, slice_range, true, false, MatchOption, IfOk, OnOk, OnErr, IsErrOf, vec_len};
ghost use Rattle.tcs_io.specs.Bytes.{Moves};
ghost use Rattle.tcs_io.specs.Faults.{Rose};
ghost use Rattle.schedule_text.specs.Buffer.{FirstFeed, Grew, Ends};
ghost use Rattle.schedule_text.specs.Lines.{has_feed, Decided, Fits, HandsOut, IsLine, Keeps, used};
ghost use Rattle.schedule_text.specs.declared.lines.LinesStop.TheVariants.{ReadFault, OutOfMemory};

use crate::limits::LINE_LIMIT;
use memchr::memchr;
use std::alloc::{AllocError, Global};
use std::marker::Model;
use tcs_io::{Failed, Source};
use tcs_terms::OutOfMemory;
use thiserror::Error;

/// What a call of [`Lines::next_line`] found.
#[derive(Clone, Copy, Debug, PartialEq, Eq)]
pub enum Got {
    /// A line that a line feed ends.
    Whole,
    /// At least one byte, after which the input ended inside a line.
    Cut,
    /// One byte more than a line may have, without a line feed.
    Long,
    /// No byte: the input had ended.
    Nothing,
}

/// Why no line was handed out.
#[derive(Clone, Copy, Debug, PartialEq, Eq, Error)]
pub enum LinesStop {
    /// Reading failed. Its cause stays with the source, which counts it.
    #[error("reading failed")]
    ReadFault,
    /// There was no memory for the line.
    #[error("out of memory")]
    OutOfMemory,
}

impl From<Failed> for LinesStop {
    ghost from_gives = { λ _ stop. stop ≡ ReadFault };

    fn from(_: Failed) -> Self {
        LinesStop::ReadFault
    }
}

impl From<AllocError> for LinesStop {
    ghost from_gives = { λ _ stop. stop ≡ OutOfMemory };

    fn from(_: AllocError) -> Self {
        LinesStop::OutOfMemory
    }
}

/// How many bytes are held at most: one more than a line may have.
const ROOM: usize = LINE_LIMIT + 1;

// Why no more bytes are read before a line is handed out.
enum LineEnd {
    Feed(usize),
    Full,
    End,
}

/// Hands out the lines of a source. Contracts see it as the bytes that it has read and not yet handed out.
#[derive(Debug, Drop)]
pub struct Lines {
    buffer: Vec<u8>,
    start: usize,
    end: usize,
}

impl Model for Lines {
    ghost use Rattle.std.specs.Prelude.{◌≡◌, ℕ, ◌≤◌, List, slice_range, vec_len};
    ghost use Rattle.schedule_text.specs.declared.lines.TheConstants.{ROOM};

    ghost Value = { List ℕ };

    ghost view = { λ lines. slice_range lines.buffer.items lines.start lines.end };

    ghost invariant = { λ lines. (lines.start ≤ lines.end) × (lines.end ≤ ROOM) × (vec_len lines.buffer ≡ ROOM) };
}

impl Lines {
    /// Holds nothing yet.
    pub fn begin(alloc: Global) -> Result<Self, OutOfMemory>
        ensures { IfOk result (λ lines. lines ≡ []) }
    {
        let mut buffer = Vec::with_capacity(alloc, ROOM)?;
        buffer.resize(ROOM, 0)?;
        Ok(Lines {
            buffer,
            start: 0,
            end: 0,
        })
    }

    fn held(&self) -> &[u8]
        ensures bytes { result.now ≡ self.now }
        ensures most { length result.now ≤ ROOM }
    {
        let all = self.buffer.as_slice();
        &all[self.start..self.end]
    }

    // The first line feed, where none is among the bytes that were searched before.
    fn find_feed(&self, searched: usize) -> Option<usize>
        requires inside { searched ≤ length self.now }
        requires none_before { has_feed (take searched self.now) ≡ false }
        ensures first { MatchOption result (has_feed self.now ≡ false) (FirstFeed self.now) }
        ensures most { length self.now ≤ ROOM }
    {
        let held = self.held();
        match memchr(b'\n', &held[searched..]) {
            Some(at) => Some(searched + at),
            None => None,
        }
    }

    // Reads until a whole line is held, or too many bytes for one, or the last bytes.
    fn look<S: Source>(&mut self, source: &mut S) -> Result<LineEnd, Failed>
        ensures ends { IfOk result (λ end. Ends end self.new) }
        ensures last { (rest : List ℕ) → S.left source.old ≡ Some rest
            → IfOk result (λ end. end ≡ LineEnd.End → S.left source.new ≡ Some []) }
        ensures kept { (rest : List ℕ) → S.left source.old ≡ Some rest
            → Keeps (self.old ++ rest) self.new (S.left source.new) }
        ensures part { OnErr result (IsLine self.new) }
        ensures alone { Decided self.old → source.new ≡ source.old }
        ensures untold { S.left source.old ≡ None → S.left source.new ≡ None }
        ensures count { S.faults source.old ≤ S.faults source.new }
        ensures failed { OnErr result (Rose (S.faults source.old) (S.faults source.new)) }
        ensures most { length self.new ≤ ROOM }
    {
        let mut searched = 0;
        'reads: loop {
            if let Some(at) = self.find_feed(searched) {
                return Ok(LineEnd::Feed(at));
            }
            searched = self.held().len();
            if searched > LINE_LIMIT {
                return Ok(LineEnd::Full);
            }
            let count = self.fill(source)?;
            if count == 0 {
                return Ok(LineEnd::End);
            }
        }
    }

    /// Puts the next line in place of what `line` holds. It reads only while no whole line is held and there is room.
    ///
    /// `ReadFault` comes only where the source counted a fault, and `OutOfMemory` where `line` did not get its memory.
    /// An error hands out nothing and loses nothing.
    pub fn next_line<S: Source>(
        &mut self,
        source: &mut S,
        line: &mut Vec<u8>,
    ) -> Result<Got, LinesStop>
        ensures line { IfOk result (λ got. Fits got line.new.items) }
        ensures bytes { (rest : List ℕ) → S.left source.old ≡ Some rest
            → IfOk result (λ got. HandsOut got (self.old ++ rest) line.new.items self.new (S.left source.new)) }
        ensures kept { (rest : List ℕ) → S.left source.old ≡ Some rest
            → OnErr result (Keeps (self.old ++ rest) self.new (S.left source.new)) }
        ensures fault { IsErrOf result LinesStop.ReadFault → Rose (S.faults source.old) (S.faults source.new) }
        ensures part { IsErrOf result LinesStop.ReadFault → IsLine self.new }
        ensures ahead { IfOk result (λ got. used got line.new.items + length self.new ≤ LINE_LIMIT + 1) }
        ensures most { length self.new ≤ LINE_LIMIT + 1 }
        ensures alone { Decided self.old → source.new ≡ source.old }
        ensures count { S.faults source.old ≤ S.faults source.new }
        ensures untold { S.left source.old ≡ None → S.left source.new ≡ None }
    {
        match self.look(source)? {
            LineEnd::Feed(at) => {
                self.hand_out(at, line)?;
                self.pass(1);
                Ok(Got::Whole)
            }
            LineEnd::Full => {
                self.hand_out_all(line)?;
                Ok(Got::Long)
            }
            LineEnd::End => {
                let count = self.hand_out_all(line)?;
                Ok(if count == 0 { Got::Nothing } else { Got::Cut })
            }
        }
    }

    // Puts the first bytes in place of the line.
    fn hand_out(&mut self, count: usize, line: &mut Vec<u8>) -> Result<(), AllocError>
        requires { count ≤ length self.old }
        ensures line { OnOk result (line.new.items ≡ take count self.old) }
        ensures passed { OnOk result (self.new ≡ drop count self.old) }
        ensures kept { OnErr result (self.new ≡ self.old) }
    {
        line.clear();
        line.extend_from_slice(&self.held()[..count])?;
        self.pass(count);
        Ok(())
    }

    // Puts all the bytes in place of the line, and answers how many they are.
    fn hand_out_all(&mut self, line: &mut Vec<u8>) -> Result<usize, AllocError>
        ensures line { OnOk result (line.new.items ≡ self.old) }
        ensures passed { OnOk result (self.new ≡ []) }
        ensures many { IfOk result (λ count. count ≡ length self.old) }
        ensures kept { OnErr result (self.new ≡ self.old) }
    {
        let count = self.held().len();
        self.hand_out(count, line)?;
        Ok(count)
    }

    fn pass(&mut self, count: usize)
        requires { count ≤ length self.old }
        ensures { self.new ≡ drop count self.old }
    {
        self.start += count;
    }

    // Reads once, where there is room and no whole line is held.
    fn fill<S: Source>(&mut self, source: &mut S) -> Result<usize, Failed>
        requires room { length self.old ≤ LINE_LIMIT }
        requires no_line { has_feed self.old ≡ false }
        ensures grew { IfOk result (λ count. Grew count self.old self.new) }
        ensures same { OnErr result (self.new ≡ self.old) }
        ensures kept { (rest : List ℕ) → S.left source.old ≡ Some rest
            → Keeps (self.old ++ rest) self.new (S.left source.new) }
        ensures end { (rest : List ℕ) → S.left source.old ≡ Some rest
            → IfOk result (λ count. count ≡ 0 → S.left source.new ≡ Some []) }
        ensures untold { S.left source.old ≡ None → S.left source.new ≡ None }
        ensures count { S.faults source.old ≤ S.faults source.new }
        ensures failed { OnErr result (Rose (S.faults source.old) (S.faults source.new)) }
        ensures most { length self.new ≤ ROOM }
    {
        let held = self.end - self.start;
        move_to_front(&mut self.buffer, self.start, self.end);
        self.start = 0;
        self.end = held;
        let count = read_after(&mut self.buffer, held, source)?;
        self.end = held + count;
        Ok(count)
    }
}

// Moves these bytes to the front.
fn move_to_front(buffer: &mut Vec<u8>, start: usize, end: usize)
    requires ordered { start ≤ end }
    requires within { end ≤ vec_len buffer.old }
    ensures len { vec_len buffer.new ≡ vec_len buffer.old }
    ensures moved { take (end - start) buffer.new.items ≡ slice_range buffer.old.items start end }
{
    if 0 < start {
        buffer.copy_within(start..end, 0);
    }
}

// Reads once into what comes after the first bytes.
fn read_after<S: Source>(
    buffer: &mut Vec<u8>,
    first: usize,
    source: &mut S,
) -> Result<usize, Failed>
    requires { first < vec_len buffer.old }
    ensures len { vec_len buffer.new ≡ vec_len buffer.old }
    ensures same { take first buffer.new.items ≡ take first buffer.old.items }
    ensures within { IfOk result (λ count. first + count ≤ vec_len buffer.old) }
    ensures moved { (rest : List ℕ) → S.left source.old ≡ Some rest
        → IfOk result (λ count. Moves count rest (drop first buffer.new.items) (S.left source.new)) }
    ensures end { (rest : List ℕ) → S.left source.old ≡ Some rest
        → IfOk result (λ count. count ≡ 0 → rest ≡ []) }
    ensures kept { OnErr result (S.left source.new ≡ S.left source.old) }
    ensures untold { S.left source.old ≡ None → S.left source.new ≡ None }
    ensures count { S.faults source.old ≤ S.faults source.new }
    ensures failed { OnErr result (Rose (S.faults source.old) (S.faults source.new)) }
{
    let all = buffer.as_mut_slice();
    source.read(&mut all[first..])
}
