//! What each run of a setup shows can stand in a trace.
#![tactic(auto)]

pub mod traces;
