//! The text of a schedule: its lines.
#![tactic(auto)]

mod event_lines;
mod faults;
mod header;
mod laws;
pub mod limits;
mod lines;
mod node_lists;
mod places;
mod printing;
mod reader;
mod script;
mod transactions;
mod verbs;
mod word_readers;

pub use faults::LineFault;
pub use laws::{
    a_script_is_read, a_text_is_taken, every_line_is_one, every_text_or_bad_line,
    few_lines_are_read, no_text_has_a_bad_line, one_first_bad_line, one_schedule, one_script,
    one_text, what_is_printed_is_read, what_is_read_begins_a_schedule, what_is_read_is_a_script,
    what_is_read_is_printed, what_is_read_may_stand, what_is_refused_begins_no_schedule,
    what_is_taken_is_a_text,
};
pub use lines::{Got, Lines, LinesStop};
pub use places::Place;
pub use printing::{has_line, print_event, print_settle, print_setup};
pub use reader::{LineItem, LineReader};
pub use script::{ScriptForm, ScriptItem, ScriptReader};
