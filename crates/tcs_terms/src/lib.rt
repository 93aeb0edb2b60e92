//! The terms that every layer of the service speaks in: objects, payloads, votes, rows, configurations,
//! messages, events and setups, and their limits.
#![tactic(auto)]

mod configurations;
mod copies;
mod events;
mod faults;
mod ids;
mod inline;
mod inputs;
mod kinds;
pub mod limits;
mod logs;
mod memory;
mod messages;
mod objects;
mod order;
mod payload_faults;
mod payloads;
mod places;
mod ranges;
mod row_faults;
mod rules;
mod runs;
mod setup_faults;
mod setups;
mod shard_sets;
mod shards;
mod versions;
mod votes;

pub use configurations::{Config, Wanted};
pub use faults::{BadConfig, BadPayload, BadSetup, BadShards, NameFault, RowsFault, ValueFault};
pub use ids::{Epoch, NodeId, ShardId, Slot, TxId};
pub use inputs::{Event, Handled, Input, Note, Result1};
pub use kinds::Kind;
pub use logs::{Entry, Mark, Row, Rows};
pub use memory::OutOfMemory;
pub use messages::{Message, Outgoing, Why};
pub use objects::{Name, Value, is_name_byte, strange_byte};
pub use order::{name_before, same_name};
pub use payload_faults::{reads_name, reads_nothing};
pub use payloads::{Payload, RangePart, ReadPart, WritePart};
pub use places::is_among;
pub use runs::{events_come_one_by_one, what_fits_is_in_range};
pub use setup_faults::{has_node, is_node_of};
pub use setups::{Rule, Setup};
pub use shard_sets::ShardSet;
pub use shards::shard_of;
pub use versions::Version;
pub use votes::{Cause, Decision, Vote};
