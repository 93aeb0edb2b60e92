//! What a node does in its own shard: preparing, accepting, marking, promising, and becoming leader or follower of a new
//! configuration.
#![tactic(auto)]

mod accepting;
mod deciding;
mod duties;
mod following;
mod leading;
mod preparing;
mod promising;
mod replicas;
mod roles;
mod telling;

pub use replicas::Replica;
pub use roles::Role;
