//! Schedules made from numbers: which events the words of a seed come to beside their run, in `specs/`, and what holds of
//! every such run.
#![tactic(auto)]

pub mod laws;
