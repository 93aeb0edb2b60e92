//! What the tests share.

use schedule_text::{
    Got, LineFault, LineItem, LineReader, Lines, ScriptForm, ScriptItem, ScriptReader,
};
use std::alloc::{AllocError, Global};
use std::process::Abort;
use std::test::Fail;
use tcs_io::MemSource;
use text_words::Reason;

/// A source that gives at most so many bytes in each read, and fails the reads with these numbers.
pub fn source_of(
    alloc: Global,
    bytes: &[u8],
    most: usize,
    fails: &[u32],
) -> Result<MemSource, AllocError> {
    let bytes = bytes.to_vec(alloc)?;
    let fails = fails.to_vec(alloc)?;
    Ok(MemSource::new(bytes, most.max(1), fails))
}

/// These bytes, one after the other.
pub fn joined(alloc: Global, parts: &[&str]) -> Result<Vec<u8>, AllocError> {
    let mut all = Vec::new(alloc);
    for part in parts {
        all.extend_from_slice(part.as_bytes())?;
    }
    Ok(all)
}

/// What became of a text.
#[derive(Clone, Copy, Debug, PartialEq, Eq)]
pub enum Outcome {
    /// It was read to its end, with so many events.
    Read { events: u32 },
    /// This line, from 1, was refused.
    Refused { line: u32, reason: Reason },
    /// Reading stopped for another cause.
    Stopped,
}

/// What becomes of a schedule that comes in such pieces.
pub fn read_text(alloc: Global, text: &[u8], most: usize) -> Result<Outcome, Fail> {
    let mut source = source_of(alloc, text, most, &[])?;
    let mut lines = Lines::begin(alloc)?;
    let mut reader = LineReader::new(alloc);
    let mut line = Vec::new(alloc);
    let mut events = 0u32;
    for number in 1..=1000u32 {
        let got = lines.next_line(&mut source, &mut line)?;
        match reader.take(got, &line) {
            Ok(LineItem::Event(_)) => events = events.saturating_add(1),
            Ok(LineItem::End) => {
                if got == Got::Nothing {
                    return Ok(Outcome::Read { events });
                }
            }
            Ok(LineItem::Header) => {}
            Ok(LineItem::Begun(_)) => {}
            Err(LineFault::Bad(reason)) => {
                return Ok(Outcome::Refused {
                    line: number,
                    reason,
                });
            }
            Err(LineFault::OutOfMemory) => return Ok(Outcome::Stopped),
        }
    }
    Ok(Outcome::Stopped)
}

/// What becomes of a script. Its turns count as events.
pub fn read_script(alloc: Global, form: ScriptForm, text: &[u8]) -> Result<Outcome, Fail> {
    let mut source = source_of(alloc, text, 4096, &[])?;
    let mut lines = Lines::begin(alloc)?;
    let mut reader = ScriptReader::new(alloc, form);
    let mut line = Vec::new(alloc);
    let mut events = 0u32;
    for number in 1..=1000u32 {
        let got = lines.next_line(&mut source, &mut line)?;
        match reader.take(got, &line) {
            Ok(ScriptItem::Event(_)) => events = events.saturating_add(1),
            Ok(ScriptItem::Settle(turns)) => events = events.saturating_add(turns),
            Ok(ScriptItem::End) => {
                if got == Got::Nothing {
                    return Ok(Outcome::Read { events });
                }
            }
            Ok(ScriptItem::Header) => {}
            Ok(ScriptItem::Begun(_)) => {}
            Err(LineFault::Bad(reason)) => {
                return Ok(Outcome::Refused {
                    line: number,
                    reason,
                });
            }
            Err(LineFault::OutOfMemory) => return Ok(Outcome::Stopped),
        }
    }
    Ok(Outcome::Stopped)
}

/// Expects each of these lines after this front to be refused for its reason.
pub fn expect_refused(
    rt: &impl Abort,
    alloc: Global,
    front: &str,
    line: u32,
    cases: &[(&str, Reason)],
) -> Result<(), Fail> {
    for (text, reason) in cases {
        let bytes = joined(alloc, &[front, *text, "\n"])?;
        let refused = Outcome::Refused {
            line,
            reason: *reason,
        };
        assert_eq!(rt; read_text(alloc, &bytes, 4096)?, refused, "{text}");
    }
    Ok(())
}

/// Expects each of these whole texts to be refused at this line, for its reason.
pub fn expect_bad(
    rt: &impl Abort,
    alloc: Global,
    cases: &[(&str, u32, Reason)],
) -> Result<(), Fail> {
    for (text, line, reason) in cases {
        let refused = Outcome::Refused {
            line: *line,
            reason: *reason,
        };
        assert_eq!(rt; read_text(alloc, text.as_bytes(), 7)?, refused, "{text}");
    }
    Ok(())
}

/// Expects each of these lines of a script after this front to be refused for its reason.
pub fn expect_script_refused(
    rt: &impl Abort,
    alloc: Global,
    form: ScriptForm,
    front: &str,
    line: u32,
    cases: &[(&str, Reason)],
) -> Result<(), Fail> {
    for (text, reason) in cases {
        let bytes = joined(alloc, &[front, *text, "\n"])?;
        let refused = Outcome::Refused {
            line,
            reason: *reason,
        };
        assert_eq!(rt; read_script(alloc, form, &bytes)?, refused, "{text}");
    }
    Ok(())
}
