//! The text of a backup file: its printers, and a reader that accepts exactly the lines that may stand in one.
#![tactic(auto)]

mod items;
pub mod limits;
mod printers;
mod reader;
mod stages;
#[cfg(test)]
mod tests;
mod words;

pub use items::{BackupItem, BackupLineFault};
pub use printers::{print_call, print_end, print_head, print_object, print_place};
pub use reader::BackupReader;
pub use stages::{Span, Stage};
