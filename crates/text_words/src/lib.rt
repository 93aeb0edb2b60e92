//! The words of every text of the service: a cursor over them, the readers and printers of numbers, names, values in hex
//! and transactions, and the text of a payload.
#![tactic(auto)]

mod cursor;
mod hex_words;
mod printing;
mod reading;
mod texts;
mod word_readers;
mod words;

pub use cursor::Words;
pub use hex_words::{bytes_in, put_hex, put_value, value_in};
pub use printing::print_payload;
pub use reading::read_payload;
pub use texts::{is_numeral, put, put_byte, put_number, put_txn, read_number};
pub use word_readers::{all_read, fixed_word, name_in, name_word, number_word};
pub use words::{Reason, Stop, WordFault};
