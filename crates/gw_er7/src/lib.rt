//! Messages of HL7 v2.5.1 in the encoding ER7 (chapter 2, sections 2.5 to 2.7): their values, reading and writing.
#![tactic(auto)]

mod builder;
mod checks;
mod classes;
mod counts;
mod decide;
mod delimiters;
mod escapes;
mod fault;
mod fields;
mod laws;
mod layout;
mod lines;
mod message;
mod place;
mod reader;
pub mod same;
mod search;
mod spans;
mod start;
mod texts;
mod values;
mod view;
mod writer;

pub use builder::Builder;
pub use checks::is_segment_name;
pub use decide::is_canonical;
pub use delimiters::Delimiters;
pub use escapes::canonical;
pub use fault::ReadFault;
pub use laws::{
    canonical_is_decided, canonical_stays, reads_once, reads_or_fails, rows, rows_of_reading,
    rows_of_writing, written_has_no_idle_separator, written_is_read, written_is_the_one,
};
pub use layout::write_segment;
pub use message::Message;
pub use place::Place;
pub use reader::{read, read_block};
pub use view::{Segment, Value};
pub use writer::write;
