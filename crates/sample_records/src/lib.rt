//! The records of a ring, PERF_RECORD_SAMPLE and PERF_RECORD_LOST of perf_event_open(2), from fields to words and
//! back. Contracts see a record as the definitions of records have it, and a fault as the first that its words have.
//! It serves the crates that write and read rings.
#![tactic(auto)]

mod asking;
mod fault;
mod fields;
mod header;
mod laws;
mod reading;
mod record;
mod words;

pub use asking::{read_fields, read_trailer};
pub use fault::RecordFault;
pub use fields::{
    CPU, ID, IDENTIFIER, IP, PERIOD, STREAM_ID, TID, TIME, Trailer, lost_record, sample_record,
};
pub use header::{Header, header_of, header_word};
pub use laws::{headers_have_their_fields, words_are_of_their_fields};
pub use reading::read_record;
pub use record::{Record, RecordWords};
pub use words::words_of;
