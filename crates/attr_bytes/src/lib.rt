//! An event's attribute as the bytes of Linux's struct perf_event_attr, read and written. Contracts see the
//! bytes as a list, each field as the little-endian number at its offset, and the flags bit by bit. It
//! serves whoever opens an event by the bytes that a tool gave to perf_event_open(2).
#![tactic(auto)]

mod fault;
mod fields;
mod flag_word;
mod kinds;
mod raw;
mod reading;
mod writing;

pub use fault::AttrFault;
pub use kinds::kind_of;
pub use raw::RawAttr;
pub use reading::read_attr;
pub use writing::attr_words;
