//! The run that a replay keeps: a world, with the guard of a rule.

use crate::runs::{Posted, Run, RunStop};
use std::alloc::Global;
use tcs_laws::VoteGuard;
use tcs_terms::{Event, Note, OutOfMemory, Result1, Setup, TxId};
use world::{Stop, World};

impl<G: VoteGuard> Run for World<G> {
    ghost tests = { G.Rule.tests };

    ghost setup = { λ w. w.setup };

    ghost progress = { λ w. w.progress };

    ghost spent = { λ w. w.spent };

    fn first(alloc: Global, deployment: Setup) -> Result<Self, OutOfMemory> {
        World::new(alloc, deployment)
    }

    fn step(&mut self, event: Event) -> Result<Result1, RunStop> {
        match World::step(self, event) {
            Ok(happening) => Ok(happening.result),
            Err(Stop::SoupFull(sum)) => Err(RunStop::Full(sum)),
            Err(Stop::OutOfMemory) => Err(RunStop::OutOfMemory),
        }
    }

    fn events(&self) -> u32 {
        World::events(self)
    }

    #[tactic(auto, unfolding(protocol::specs::Limit::frame_limit))]
    fn messages(&self) -> u32 {
        World::messages(self)
    }

    fn message(&self, number: u32) -> Option<Posted<'_>> {
        match World::message(self, number) {
            Some(posted) => Some(Posted {
                from: posted.from,
                to: posted.to,
                frame: posted.frame,
            }),
            None => None,
        }
    }

    fn history(&self) -> &[Note] {
        World::history(self)
    }

    fn order(&self) -> &[TxId] {
        World::order(self)
    }
}
