//! A schedule, read from a source.

use crate::steps::misfits::Misfit;
use anyhow::Error;
use schedule_text::{Got, LineItem, LineReader, Lines};
use std::alloc::Global;
use tcs_io::Source;
use tcs_terms::{Event, Setup};

/// The lines of a schedule's header are fewer.
const HEADER: u32 = 1_000;

/// What is left of a schedule.
#[derive(Drop)]
pub struct Script<S: Source + Drop> {
    source: S,
    lines: Lines,
    reader: LineReader,
    line: Vec<u8>,
    ended: bool,
}

impl<S: Source + Drop> Script<S> {
    pub fn begin(alloc: Global, source: S) -> Result<Script<S>, Error> {
        Ok(Script {
            source,
            lines: Lines::begin(alloc)?,
            reader: LineReader::new(alloc),
            line: Vec::new(alloc),
            ended: false,
        })
    }

    fn next(&mut self) -> Result<LineItem, Error> {
        let got = self.lines.next_line(&mut self.source, &mut self.line)?;
        let item = self.reader.take(got, &self.line)?;
        self.ended = got == Got::Nothing;
        Ok(item)
    }

    /// The setup with which the schedule begins.
    pub fn setup(&mut self) -> Result<Setup, Error> {
        for _ in 0..HEADER {
            if let LineItem::Begun(setup) = self.next()? {
                return Ok(setup);
            }
        }
        Err(Error::from(Misfit::Header))
    }

    /// The next events, at most so many.
    pub fn events(&mut self, alloc: Global, count: usize) -> Result<Vec<Event>, Error> {
        let mut events = Vec::new(alloc);
        for _ in 0..count {
            if self.ended {
                break;
            }
            if let LineItem::Event(event) = self.next()? {
                events.push(event)?;
            }
        }
        Ok(events)
    }
}
