//! A node that coordinates transactions: it asks the shards of each for their votes, has the followers accept them, and
//! decides. The rules are after Bravo and Gotsman (PODC 2019).
#![tactic(auto)]

mod cases;
mod coordinator;
mod deciding;
mod hearing;
mod open_cases;
mod parts;
mod sending;
mod views;

pub use coordinator::Coordinator;
