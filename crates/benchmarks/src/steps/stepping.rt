//! The steps of a run.

use crate::steps::misfits::Misfit;
use anyhow::Error;
use tcs_laws::VoteGuard;
use tcs_terms::Event;
use world::World;

/// Steps all events.
pub fn step_all<G: VoteGuard>(world: &mut World<G>, events: Vec<Event>) -> Result<(), Error> {
    for event in events {
        if !world.takes(&event) {
            return Err(Error::from(Misfit::Event));
        }
        world.step(event)?;
    }
    Ok(())
}
