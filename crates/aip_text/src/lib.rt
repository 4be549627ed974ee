//! The words of the text files: numbers, bytes in hex, lines and their words.
//!
//! A text is lines, each ended by a line feed. A line is words with one space between them. Each
//! value has one spelling: a number is decimal without a leading zero, bytes are pairs of hex digits
//! in lower case. A reader takes just that spelling, and a writer appends it.
//!
//! ```text
//! if let Some(number) = read_number(b"600") {
//!     push_word(&mut line, b"tick")?;
//!     push_space(&mut line)?;
//!     push_number(&mut line, number)?;
//! }
//! ```
#![tactic(auto)]

mod fields;
mod lines;
mod reading;
mod writing;

pub use fields::{five_words, four_words, read_id, read_name, three_words};
pub use lines::{
    FirstLine, MOST_LINE_BYTES, MOST_LINES, has_carriage_return, is_skipped, next_line,
};
pub use reading::{cut, cut_at, read_bytes, read_hex, read_hex_array, read_number, read_u64};
pub use writing::{push_bytes, push_hex, push_number, push_space, push_text, push_word};

#[cfg(test)]
mod tests;
