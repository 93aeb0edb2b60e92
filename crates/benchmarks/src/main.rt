//! Times the parts of the service, each by a word of its own. What is counted goes to standard output, the times to
//! standard error. The scripts of the folder `bench` run it and say what its figures mean.
#![tactic(auto)]

mod frames;
mod lines;
mod part;
mod steps;
mod terms;
mod traces;
mod votes;
mod words;

use crate::part::Part;
use crate::words::Words;
use anyhow::Error;

fn main(rt: HostRuntime) -> Result<(), Error> {
    let words = Words::of(&rt)?;
    match words.part {
        Part::Terms => terms::run(&rt, words.number(0, 1)),
        Part::Frames => frames::run(&rt, words.number(0, 1)),
        Part::Votes => votes::run(&rt, votes::workload(&words)?),
        Part::Lines => lines::run(&rt),
        Part::Traces => traces::run(&rt),
        Part::Steps => steps::run(&rt),
    }
}
