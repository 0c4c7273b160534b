//! From fields to a record.

ghost use Rattle.std.specs.Prelude.{◌≡◌, ◌+◌, ◌<◌, ◌≤◌, ◌++◌, length};
ghost use Rattle.ring_spec.specs.Records.{IsRecord, Sample, Lost, body_of, field, thread_word, trailer_of};
ghost use Rattle.ring_spec.specs.Sending.{trailer_if};
ghost use Rattle.sample_records.specs.Seen.{seen};

use crate::record::{Record, RecordWords};
use perf_base::Mode;
use ring_spec::Fields;

/// PERF_SAMPLE_IP.
pub const IP: u64 = 1;

/// PERF_SAMPLE_TID.
pub const TID: u64 = 2;

/// PERF_SAMPLE_TIME.
pub const TIME: u64 = 4;

/// PERF_SAMPLE_ID.
pub const ID: u64 = 64;

/// PERF_SAMPLE_CPU.
pub const CPU: u64 = 128;

/// PERF_SAMPLE_PERIOD.
pub const PERIOD: u64 = 256;

/// PERF_SAMPLE_STREAM_ID.
pub const STREAM_ID: u64 = 512;

/// PERF_SAMPLE_IDENTIFIER.
pub const IDENTIFIER: u64 = 65536;

/// What gives a LOST record its trailer: `all` is the flag sample_id_all of the event whose record follows, `sample`
/// the event's bits of PERF_SAMPLE_.
#[derive(Clone, Copy, PartialEq, Eq, Debug)]
pub struct Trailer {
    pub all: bool,
    pub sample: u64,
    pub fields: Fields,
}

/// The sample that has each field whose bit of PERF_SAMPLE_ is set. Other bits have no effect.
pub fn sample_record(mode: Mode, sample: u64, fields: &Fields) -> Record
    ensures says { seen result ≡ Sample mode (body_of sample fields.now) }
    ensures lawful { IsRecord (seen result) }
{
    let mut body = RecordWords::new();
    push_field(&mut body, sample, IDENTIFIER, fields.identifier);
    push_field(&mut body, sample, IP, fields.ip);
    push_field(&mut body, sample, TID, word_of_thread(fields));
    push_field(&mut body, sample, TIME, fields.time);
    push_field(&mut body, sample, ID, fields.id);
    push_field(&mut body, sample, STREAM_ID, fields.stream_id);
    push_field(&mut body, sample, CPU, u64::from(fields.cpu));
    push_field(&mut body, sample, PERIOD, fields.period);
    Record::Sample { mode, body }
}

/// The record that `lost` records of this id were lost, with the trailer of sample_id_all where that flag is set.
pub fn lost_record(id: u64, lost: u64, trailer: &Trailer) -> Record
    ensures says { seen result ≡ Lost id lost (trailer_if trailer.now.all trailer.now.sample trailer.now.fields) }
    ensures lawful { IsRecord (seen result) }
{
    let trailer = if trailer.all {
        trailer_words(trailer.sample, &trailer.fields)
    } else {
        RecordWords::new()
    };
    Record::Lost { id, lost, trailer }
}

// The words of a trailer.
fn trailer_words(sample: u64, fields: &Fields) -> RecordWords
    ensures words { result ≡ trailer_of sample fields.now }
    ensures few { length result ≤ 6 }
{
    let mut words = RecordWords::new();
    push_field(&mut words, sample, TID, word_of_thread(fields));
    push_field(&mut words, sample, TIME, fields.time);
    push_field(&mut words, sample, ID, fields.id);
    push_field(&mut words, sample, STREAM_ID, fields.stream_id);
    push_field(&mut words, sample, CPU, u64::from(fields.cpu));
    push_field(&mut words, sample, IDENTIFIER, fields.identifier);
    words
}

// The word of process and thread.
fn word_of_thread(fields: &Fields) -> u64
    ensures { result ≡ thread_word fields.now }
{
    u64::from(fields.pid) + (u64::from(fields.tid) << 32)
}

// Adds the word of a field where its bit is set.
fn push_field(words: &mut RecordWords, sample: u64, bit: u64, word: u64)
    requires { length words.old < 9 }
    ensures added { words.new ≡ words.old ++ field bit sample word }
    ensures few { length words.new ≤ length words.old + 1 }
{
    if sample & bit != 0 {
        words.push(word);
    }
}
