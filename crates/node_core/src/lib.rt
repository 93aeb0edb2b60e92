//! One node of the service: its part in its shard, the transactions that it coordinates and what it moves. The rules are
//! after Bravo and Gotsman (PODC 2019).
#![tactic(auto)]

mod clients;
mod configurations;
mod hearing;
mod inputs;
mod nodes;
mod outcomes;
mod parts;
mod transactions;

pub use nodes::Node;
