//! What an audit says of the traces that a replay writes.
#![tactic(auto)]

pub mod traces;
