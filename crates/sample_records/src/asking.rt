//! From a record to fields.

ghost use Rattle.std.specs.Prelude.{◌≡◌, ℕ, ◌+◌, ◌*◌, ◌/◌, ◌%◌, ◌^◌, ◌<◌, ◌≤◌, List, [], ◌∷◌, ◌++◌, length, IfOk, MatchResult, None, Some, Ok};
ghost use Rattle.ring_spec.specs.declared.fields.Fields.{Fields};
ghost use Rattle.perf_base.specs.declared.lines.Mode.{Mode};
ghost use Rattle.ring_spec.specs.Records.{Lost, Sample, body_of, field, trailer_of};
ghost use Rattle.sample_records.specs.declared.fault.RecordFault.TheVariants.{BadPad};
ghost use Rattle.sample_records.specs.FieldWords.{IsKept, body_words, fields_in, trailer_words};
ghost use Rattle.sample_records.specs.Fields.{HasHalves, SaysFields, SaysTrailer, bits_in, fields_fault, in_body, in_trailer, kept, kept_in_body, kept_in_trailer, trailer_fault};
ghost use Rattle.sample_records.specs.Seen.{seen};

use crate::fault::RecordFault;
use crate::fields::{CPU, ID, IDENTIFIER, IP, PERIOD, STREAM_ID, TID, TIME};
use crate::record::Record;
use ring_spec::Fields;

/// The fields of a sample by these bits of PERF_SAMPLE_, 0 for each whose bit is not set. The error is `BadType` for a
/// LOST record, `BadSize` where there are not as many words as bits, `BadPad` where the high half of the CPU word is
/// not 0. Other bits have no effect.
pub fn read_fields(record: &Record, sample: u64) -> Result<Fields, RecordFault>
    // What is read, the record says.
    ensures ok { IfOk result (SaysFields sample (seen «record».now)) }
    // The fields that a sample was made of are read.
    ensures every { (mode : Mode) (f : Fields) → HasHalves f → seen «record».now ≡ Sample mode (body_of sample f)
        → result ≡ Ok (kept_in_body sample f) }
    // Which fault it is, and that there is none on success.
    ensures fault { MatchResult result
        (λ _. fields_fault sample (seen «record».now) ≡ None)
        (λ fault. fields_fault sample (seen «record».now) ≡ Some fault) }
{
    match record {
        Record::Sample { body, .. } if body.len() == bits_of_body(sample) => {
            fields_of(take_body(body.as_slice(), sample))
        }
        Record::Sample { .. } => Err(RecordFault::BadSize),
        Record::Lost { .. } => Err(RecordFault::BadType),
    }
}

/// The fields of a LOST record's trailer by these bits of PERF_SAMPLE_, which are 0 for the trailer of an event
/// without the flag sample_id_all; 0 for each field whose bit is not set or that a trailer does not have. The error is
/// `BadType` for a sample, `BadSize` where there are not as many words as bits of a trailer, `BadPad` where the high
/// half of the CPU word is not 0. Other bits have no effect.
pub fn read_trailer(record: &Record, sample: u64) -> Result<Fields, RecordFault>
    // What is read, the record says.
    ensures ok { IfOk result (SaysTrailer sample (seen «record».now)) }
    // The fields that a trailer was made of are read.
    ensures every { (id lost : ℕ) (f : Fields) → HasHalves f → seen «record».now ≡ Lost id lost (trailer_of sample f)
        → result ≡ Ok (kept_in_trailer sample f) }
    // Which fault it is, and that there is none on success.
    ensures fault { MatchResult result
        (λ _. trailer_fault sample (seen «record».now) ≡ None)
        (λ fault. trailer_fault sample (seen «record».now) ≡ Some fault) }
{
    match record {
        Record::Lost { trailer, .. } if trailer.len() == bits_of_trailer(sample) => {
            fields_of(take_trailer(trailer.as_slice(), sample))
        }
        Record::Lost { .. } => Err(RecordFault::BadSize),
        Record::Sample { .. } => Err(RecordFault::BadType),
    }
}

// The words of fields, 0 for each that is not there.
#[derive(Clone, Copy)]
struct FieldWords {
    identifier: u64,
    ip: u64,
    thread: u64,
    time: u64,
    id: u64,
    stream_id: u64,
    cpu: u64,
    period: u64,
}

// How many words a sample's body has.
fn bits_of_body(sample: u64) -> usize
    ensures { result ≡ bits_in sample in_body }
{
    bit_of(sample, IDENTIFIER)
        + bit_of(sample, IP)
        + bit_of(sample, TID)
        + bit_of(sample, TIME)
        + bit_of(sample, ID)
        + bit_of(sample, STREAM_ID)
        + bit_of(sample, CPU)
        + bit_of(sample, PERIOD)
}

// How many words a trailer has.
fn bits_of_trailer(sample: u64) -> usize
    ensures { result ≡ bits_in sample in_trailer }
{
    bit_of(sample, TID)
        + bit_of(sample, TIME)
        + bit_of(sample, ID)
        + bit_of(sample, STREAM_ID)
        + bit_of(sample, CPU)
        + bit_of(sample, IDENTIFIER)
}

// One word where the bit is set.
fn bit_of(sample: u64, bit: u64) -> usize
    ensures number { result ≡ bits_in sample (bit ∷ []) }
    ensures few { result ≤ 1 }
{
    usize::from(sample & bit != 0)
}

// The words of a sample's fields.
fn take_body(body: &[u64], sample: u64) -> FieldWords
    requires { length body.now ≡ bits_in sample in_body }
    ensures words { body.now ≡ body_words sample result }
    ensures kept { IsKept sample result }
{
    let (identifier, rest) = take_field(body, sample, IDENTIFIER);
    let (ip, rest) = take_field(rest, sample, IP);
    let (thread, rest) = take_field(rest, sample, TID);
    let (time, rest) = take_field(rest, sample, TIME);
    let (id, rest) = take_field(rest, sample, ID);
    let (stream_id, rest) = take_field(rest, sample, STREAM_ID);
    let (cpu, rest) = take_field(rest, sample, CPU);
    let (period, _) = take_field(rest, sample, PERIOD);
    FieldWords {
        identifier,
        ip,
        thread,
        time,
        id,
        stream_id,
        cpu,
        period,
    }
}

// The words of a trailer's fields.
fn take_trailer(trailer: &[u64], sample: u64) -> FieldWords
    requires { length trailer.now ≡ bits_in sample in_trailer }
    ensures words { trailer.now ≡ trailer_words sample result }
    ensures kept { IsKept sample result }
    ensures ip { result.ip ≡ 0 }
    ensures period { result.period ≡ 0 }
{
    let (thread, rest) = take_field(trailer, sample, TID);
    let (time, rest) = take_field(rest, sample, TIME);
    let (id, rest) = take_field(rest, sample, ID);
    let (stream_id, rest) = take_field(rest, sample, STREAM_ID);
    let (cpu, rest) = take_field(rest, sample, CPU);
    let (identifier, _) = take_field(rest, sample, IDENTIFIER);
    FieldWords {
        identifier,
        ip: 0,
        thread,
        time,
        id,
        stream_id,
        cpu,
        period: 0,
    }
}

// The first word where the bit is set, else 0, and the words after it.
fn take_field(words: &[u64], sample: u64, bit: u64) -> (u64, &[u64])
    requires { bits_in sample (bit ∷ []) ≤ length words.now }
    ensures split { words.now ≡ field bit sample result.0 ++ result.1.now }
    ensures rest { length words.now ≡ bits_in sample (bit ∷ []) + length result.1.now }
    ensures kept { result.0 ≡ kept sample bit result.0 }
{
    if sample & bit == 0 {
        (0, words)
    } else {
        (words[0], &words[1..])
    }
}

// The fields that words say.
fn fields_of(words: FieldWords) -> Result<Fields, RecordFault>
    ensures { MatchResult result
        (λ fields. (fields ≡ fields_in words) × (words.cpu < 2 ^ 32))
        (λ fault. (fault ≡ BadPad) × (2 ^ 32 ≤ words.cpu)) }
{
    match u32::try_from(words.cpu) {
        Ok(cpu) => Ok(Fields {
            identifier: words.identifier,
            ip: words.ip,
            pid: (words.thread % 0x1_0000_0000) as u32,
            tid: (words.thread >> 32) as u32,
            time: words.time,
            id: words.id,
            stream_id: words.stream_id,
            cpu,
            period: words.period,
        }),
        Err(_) => Err(RecordFault::BadPad),
    }
}
