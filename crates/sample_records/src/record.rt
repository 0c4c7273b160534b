//! Records.

use perf_base::{Mode, ShortList};

/// The words of a record, the first included: at most 9.
pub type RecordWords = ShortList<u64, 9>;

/// A sample with the words of its fields, at most 8, or how many records were lost before the next one, of this id,
/// with the words of its trailer, at most 6.
#[derive(Clone, Copy, PartialEq, Eq, Debug)]
pub enum Record {
    Sample {
        mode: Mode,
        body: RecordWords,
    },
    Lost {
        id: u64,
        lost: u64,
        trailer: RecordWords,
    },
}
