//! The text of a trace: its printers, and a reader that accepts exactly the lines that may stand in one.
#![tactic(auto)]

mod decisions;
mod frames;
mod items;
mod laws;
mod notes;
mod printers;
mod printing;
mod reader;
mod results;
mod spans;
mod stages;
mod versions;
mod words;

pub use items::{TraceFault, TraceItem, TxList};
pub use laws::{happenings_are_printed, no_feed_inside, one_reading, traces_are_read};
pub use printers::{
    print_happening, print_head, print_kind, print_message, print_note, print_result, print_tail,
};
pub use reader::TraceReader;
pub use stages::Stage;
