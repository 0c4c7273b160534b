//! From a record to words.

ghost use Rattle.std.specs.Prelude.{◌≡◌, ◌+◌, ◌*◌, ◌^◌, ◌≤◌, ◌++◌, length};
ghost use Rattle.ring_spec.specs.Records.{IsRecord, header, misc_of, record_words};
ghost use Rattle.sample_records.specs.Seen.{seen};

use crate::header::{LOST, SAMPLE, header_word};
use crate::record::{Record, RecordWords};
use perf_base::Mode;

/// The words of a record, its first word included.
pub fn words_of(record: &Record) -> RecordWords
    requires { IsRecord (seen «record».now) }
    ensures { result ≡ record_words (seen «record».now) }
{
    let mut words = RecordWords::new();
    match record {
        Record::Sample { mode, body } => {
            words.push(first_word(SAMPLE, misc_number(*mode), body.len() + 1));
            push_all(&mut words, body.as_slice());
        }
        Record::Lost { id, lost, trailer } => {
            words.push(first_word(LOST, 0, trailer.len() + 3));
            words.push(*id);
            words.push(*lost);
            push_all(&mut words, trailer.as_slice());
        }
    }
    words
}

// PERF_RECORD_MISC_KERNEL or PERF_RECORD_MISC_USER.
fn misc_number(mode: Mode) -> u16
    ensures { result ≡ misc_of mode }
{
    match mode {
        Mode::Kernel => 1,
        Mode::User => 2,
    }
}

// The first word of a record of `words` words.
fn first_word(kind: u32, misc: u16, words: usize) -> u64
    requires { words ≤ 9 }
    ensures { result ≡ header kind misc words }
{
    header_word(kind, misc, 8 * words as u16)
}

/// Adds words at the end.
pub fn push_all(words: &mut RecordWords, more: &[u64])
    requires { length words.old + length more.now ≤ 9 }
    ensures { words.new ≡ words.old ++ more.now }
{
    for word in more {
        words.push(*word);
    }
}
