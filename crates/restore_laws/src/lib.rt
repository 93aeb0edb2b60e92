//! A backup that is restored: the run of the schedule that puts back what was kept leaves exactly that.
#![tactic(auto)]

pub mod schedules;
