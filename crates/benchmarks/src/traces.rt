//! Times the reading of a trace, line by line, from standard input.

use anyhow::Error;
use std::fmt;
use std::time::Instant;
use trace_text::{TraceItem, TraceReader};

/// What was read: how many lines, and whether the last of them is the last of a trace.
#[derive(Clone, Copy, Debug, PartialEq, Eq)]
struct ReadTrace {
    lines: u64,
    whole: bool,
}

impl fmt::Display for ReadTrace {
    fn fmt<W: fmt::Write>(&self, f: &mut fmt::Formatter<W>) -> fmt::Result {
        let end = if self.whole { "whole" } else { "cut off" };
        write!(f, "{} lines, {end}", self.lines)
    }
}

/// Reads the lines of standard input as those of a trace.
///
/// # Errors
/// Where a line may not stand behind those before it, where the input can't be read, or memory runs out.
fn read_trace(rt: &(impl Input + AllocGlobal)) -> Result<ReadTrace, Error> {
    let mut reader = TraceReader::new();
    let mut read = ReadTrace {
        lines: 0,
        whole: false,
    };
    for line in rt.lines(rt.alloc()) {
        let line = line?;
        let item = reader.take(rt.alloc(), line.as_bytes())?;
        read.lines = read.lines.saturating_add(1);
        read.whole = matches!(item, TraceItem::End);
    }
    Ok(read)
}

/// Tells how many lines were read, whether the last of them is the last of a trace, and the time.
pub fn run(rt: &HostRuntime) -> Result<(), Error> {
    let start = Instant::now(rt)?;
    let read = read_trace(rt)?;
    let taken = start.elapsed(rt)?.as_micros();
    println!(rt; "{read}")?;
    eprintln!(rt; "{taken} us")?;
    Ok(())
}
