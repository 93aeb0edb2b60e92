//! Schedules made from numbers: which events the words of a seed come to beside a run, the text of such a schedule, and
//! what its run comes to.
#![tactic(auto)]

mod counts;
mod events;
mod generating;
mod generations;
mod plans;
mod setups;
mod sights;
mod soaking;
mod stops;

pub use generating::generate;
pub use soaking::soak;
pub use stops::GenStop;
