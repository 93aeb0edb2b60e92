//! The words of the command line.

use crate::part::Part;
use std::env;
use std::rt::Env;
use thiserror::Error;

/// The first word names no part.
#[derive(Clone, Copy, Debug, Error)]
#[error("the first word is terms, frames, votes, lines, traces or steps, and numbers follow")]
pub struct NoPart;

/// What is timed, and the numbers behind it.
#[derive(Drop)]
pub struct Words {
    pub part: Part,
    numbers: Vec<u32>,
}

impl Words {
    /// Those of the command line.
    pub fn of(rt: &(impl Env + AllocGlobal)) -> Result<Words, anyhow::Error> {
        let mut part = None;
        let mut numbers = Vec::new(rt.alloc());
        for word in env::args(rt)?.skip(1) {
            match part {
                None => part = Some(Part::named(word.as_str()).ok_or(NoPart)?),
                Some(_) => numbers.push(word.as_str().parse::<u32>()?)?,
            }
        }
        match part {
            Some(part) => Ok(Words { part, numbers }),
            None => Err(anyhow::Error::from(NoPart)),
        }
    }

    /// The number at this place, from 0, or the other one where there is none.
    pub fn number(&self, place: usize, other: u32) -> u32 {
        match self.numbers.get(place) {
            Some(number) => *number,
            None => other,
        }
    }
}
