//! Times the reading of a schedule from standard input: its bytes, its lines, and what they say.

use anyhow::Error;
use schedule_text::{Got, LineItem, LineReader, Lines};
use std::alloc::Global;
use std::time::Instant;
use tcs_io::{Source, StdSource};

/// How many events the schedule has that a source gives.
fn events_of<S: Source>(alloc: Global, source: &mut S) -> Result<u32, Error> {
    let mut lines = Lines::begin(alloc)?;
    let mut reader = LineReader::new(alloc);
    let mut line = Vec::new(alloc);
    let mut events = 0u32;
    for _ in 0..u32::MAX {
        let got = lines.next_line(source, &mut line)?;
        match reader.take(got, &line)? {
            LineItem::Event(_) => events = events.saturating_add(1),
            LineItem::Header => {}
            LineItem::Begun(_) => {}
            LineItem::End => {
                if got == Got::Nothing {
                    break;
                }
            }
        }
    }
    Ok(events)
}

/// Tells how many events it has, and the time.
pub fn run(rt: &HostRuntime) -> Result<(), Error> {
    let mut source = StdSource::new(rt.alloc(), rt.reader())?;
    let start = Instant::now(rt)?;
    let events = events_of(rt.alloc(), &mut source)?;
    let taken = start.elapsed(rt)?.as_micros();
    println!(rt; "{events} events")?;
    eprintln!(rt; "{taken} us")?;
    Ok(())
}
