//! Commands of the program, over memory.

use std::alloc::{AllocError, Global};
use std::fmt::{self, Display, Formatter};
use tcs_io::{MemSink, MemSource};
use tcs_run::{Status, run};

/// Cases, and how many of them came out as they should.
#[derive(Clone, Copy, Debug)]
pub(crate) struct Tally {
    right: u32,
    cases: u32,
}

impl Tally {
    pub(crate) fn new() -> Tally {
        Tally { right: 0, cases: 0 }
    }

    pub(crate) fn case(&mut self, right: bool) {
        self.cases = self.cases.saturating_add(1);
        if right {
            self.right = self.right.saturating_add(1);
        }
    }
}

impl Display for Tally {
    fn fmt<W: fmt::Write>(&self, f: &mut Formatter<W>) -> fmt::Result {
        write!(f, "{} of {} cases as they should", self.right, self.cases)
    }
}

/// How a command ended, and what it wrote.
#[derive(Drop)]
pub(crate) struct Outcome {
    pub(crate) status: Status,
    pub(crate) written: Vec<u8>,
}

/// Does what a word says with an input that comes byte by byte. One read and one write may fail, by their numbers from 1; 0
/// is the number of none.
pub(crate) fn outcome_of(
    alloc: Global,
    word: &str,
    bytes: &[u8],
    read: u32,
    write: u32,
) -> Result<Outcome, AllocError> {
    let mut words = Vec::new(alloc);
    words
        .push(String::from_str(alloc, word)?)
        .map_err(|_| AllocError)?;
    let mut input = MemSource::new(bytes.to_vec(alloc)?, 1, vec![in alloc; read]?);
    let mut output = MemSink::new(alloc, vec![in alloc; write]?);
    let status = run(alloc, &words, &mut input, &mut output);
    Ok(Outcome {
        status,
        written: output.bytes().to_vec(alloc)?,
    })
}
