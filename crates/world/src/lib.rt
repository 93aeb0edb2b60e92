//! One run of the service, kept event by event: its nodes and its configuration service, every message that was sent, the
//! nodes that stopped, the history, and the order of commits. Its record is the run of the protocol's definition under the
//! limit on frame bytes, and so each law about runs speaks of it.
#![tactic(auto)]

mod arena;
mod casts;
mod happenings;
mod limits;
mod orders;
mod peers;
mod stopped;
mod turns;
mod worlds;

pub use happenings::{Happening, Posted, Stop};
pub use limits::MAX_EVENTS;
pub use worlds::World;
