//! One run of the top call in memory, and what came of it.

use std::alloc::{AllocError, Global};
use std::fmt::{self, Display, Formatter};
use tcs_io::{MemSink, MemSource};
use tcs_run::{Status, run};

/// What came of a run: how it ended, what it wrote, and how many bytes it left unread.
#[derive(Drop)]
pub(crate) struct Replayed {
    pub(crate) status: Status,
    pub(crate) written: Vec<u8>,
    pub(crate) left: usize,
}

/// Replays a schedule from a source that gives at most so many bytes a read, and at least one.
pub(crate) fn replay_of(
    alloc: Global,
    schedule: &[u8],
    most: usize,
) -> Result<Replayed, AllocError> {
    run_of(alloc, &["replay"], schedule, most)
}

/// Does what words say, with a source that gives at most so many bytes a read, and at least one.
pub(crate) fn run_of(
    alloc: Global,
    command: &[&str],
    input: &[u8],
    most: usize,
) -> Result<Replayed, AllocError> {
    let mut words = Vec::new(alloc);
    for word in command {
        words
            .push(String::from_str(alloc, word)?)
            .map_err(|_| AllocError)?;
    }
    let mut input = MemSource::new(input.to_vec(alloc)?, most.max(1), Vec::new(alloc));
    let mut output = MemSink::new(alloc, Vec::new(alloc));
    let status = run(alloc, &words, &mut input, &mut output);
    Ok(Replayed {
        status,
        written: output.bytes().to_vec(alloc)?,
        left: input.left().len(),
    })
}

/// How the replays of one schedule end, whether each of them wrote the trace, and whether that is read as one.
#[derive(Clone, Copy, Debug, PartialEq, Eq)]
pub(crate) struct Ending {
    pub(crate) status: Status,
    pub(crate) alike: bool,
    pub(crate) traced: bool,
    pub(crate) read: bool,
}

impl Display for Ending {
    fn fmt<W: fmt::Write>(&self, f: &mut Formatter<W>) -> fmt::Result {
        write!(f, "{} {}", self.status.code(), self.status)?;
        if !self.alike {
            return f.write_str(", not for all reads alike");
        }
        if !self.traced {
            return f.write_str(", another trace");
        }
        match self.read {
            true => f.write_str(", the trace as written"),
            false => f.write_str(", a trace that is not read as one"),
        }
    }
}

/// How these replays of one schedule end; where there is none, out of memory.
pub(crate) fn ending_of(replays: &[Replayed], trace: &[u8], read: bool) -> Ending {
    let status = match replays {
        [first, ..] => first.status,
        [] => Status::OutOfMemory,
    };
    Ending {
        status,
        alike: replays.iter().all(|replay| replay.status == status),
        traced: replays
            .iter()
            .all(|replay| replay.written.as_slice() == trace),
        read,
    }
}
