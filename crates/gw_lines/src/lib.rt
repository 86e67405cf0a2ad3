//! The line format that profiles, maps and plans share: numbered lines of words.
#![tactic(auto)]

mod expected;
mod form;
mod lines;
mod parts;
mod spelled;
mod values;
mod words;

pub use expected::{Expected, keyword_of, line_at};
pub use form::{Form, TextFault, read_text, take_line, take_lines};
pub use lines::lines_of;
pub use parts::{
    behind, first_word, name_at, number_at, range_at, segment_at, some_values, value_at,
};
pub use spelled::{is_name, number};
pub use values::{bytes_of, value_bytes};
pub use words::{Word, words_of};
