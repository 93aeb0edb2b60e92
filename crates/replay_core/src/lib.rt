//! Replays a schedule: reads it line by line, and writes the trace of its run, which is proved to keep its promises.
#![tactic(auto)]

mod by_rule;
mod events;
mod header;
mod reading;
mod replaying;
mod runs;
mod stepping;
mod stops;
#[cfg(test)]
mod tests;
mod worlds;

pub use reading::Reading;
pub use replaying::replay;
pub use stops::ReplayStop;
