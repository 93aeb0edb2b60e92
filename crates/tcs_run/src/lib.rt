//! The top call of the program `tcs`, over any source and any sink: the words of its command line, what each command does,
//! and how a run ends.
#![tactic(auto)]

mod audits;
mod command;
mod flush;
mod generations;
mod performing;
mod quorums;
mod replays;
mod restores;
mod running;
mod status;
#[cfg(test)]
mod tests;
mod totals;
mod workloads;

pub use command::Command;
pub use flush::after_flush;
pub use generations::Generation;
pub use running::run;
pub use status::Status;
