//! From words to a record.

ghost use Rattle.std.specs.Prelude.{◌≡◌, ℕ, ◌*◌, ◌≤◌, List, ◌∷◌, ◌++◌, ◌⊎◌, drop, length, IfOk, MatchResult, None, Some, Ok};
ghost use Rattle.ring_spec.specs.Records.{IsRecord, misc_of, record_words};
ghost use Rattle.sample_records.specs.declared.record.Record.{Record};
ghost use Rattle.sample_records.specs.Headers.{word_of};
ghost use Rattle.sample_records.specs.Reading.{BeginsWith, fault_of, header_fault};
ghost use Rattle.sample_records.specs.Seen.{seen};

use crate::fault::RecordFault;
use crate::header::{Header, LOST, SAMPLE, header_of};
use crate::record::{Record, RecordWords};
use crate::words::push_all;
use perf_base::Mode;

/// The record that the words begin with and the number of its words, or their first fault: `Short` for no words,
/// `BadType`, `BadMisc`, `BadSize`, `Short` where there are fewer words than the size says.
pub fn read_record(words: &[u64]) -> Result<(Record, usize), RecordFault>
    // What is read, the words begin with.
    ensures ok { IfOk result (λ (r, n). BeginsWith words.now (seen r) n) }
    // A record that the words begin with is read.
    ensures every { (r : Record) (more : List ℕ) → IsRecord (seen r) → words.now ≡ record_words (seen r) ++ more
        → result ≡ Ok (r, length (record_words (seen r))) }
    // Which fault it is, and that there is none on success.
    ensures fault { MatchResult result
        (λ _. fault_of words.now ≡ None)
        (λ fault. fault_of words.now ≡ Some fault) }
{
    if words.is_empty() {
        return Err(RecordFault::Short);
    }
    let header = header_of(words[0]);
    check_header(&header)?;
    let count = usize::from(header.size / 8);
    if words.len() < count {
        return Err(RecordFault::Short);
    }
    Ok((take_record(&header, &words[..count]), count))
}

// The record of a header without a fault and all its words.
fn take_record(header: &Header, words: &[u64]) -> Record
    requires first { words.now ≡ word_of header.now.kind header.now.misc header.now.size ∷ drop 1 words.now }
    requires size { header.now.size ≡ 8 * length words.now }
    requires lawful { header_fault header.now.kind header.now.misc header.now.size ≡ None }
    ensures words { record_words (seen result) ≡ words.now }
    ensures lawful { IsRecord (seen result) }
{
    match header.kind {
        LOST => Record::Lost {
            id: words[1],
            lost: words[2],
            trailer: list_of(&words[3..]),
        },
        _ => Record::Sample {
            mode: mode_of(header.misc),
            body: list_of(&words[1..]),
        },
    }
}

// Looks for a fault of the first word.
fn check_header(header: &Header) -> Result<(), RecordFault>
    ensures { MatchResult result
        (λ _. header_fault header.now.kind header.now.misc header.now.size ≡ None)
        (λ fault. header_fault header.now.kind header.now.misc header.now.size ≡ Some fault) }
{
    if header.kind != LOST && header.kind != SAMPLE {
        return Err(RecordFault::BadType);
    }
    let (is_misc, least) = match header.kind {
        LOST => (header.misc == 0, 24),
        _ => (header.misc == 1 || header.misc == 2, 8),
    };
    if !is_misc {
        return Err(RecordFault::BadMisc);
    }
    if header.size < least || header.size > 72 || header.size % 8 != 0 {
        return Err(RecordFault::BadSize);
    }
    Ok(())
}

// The mode of a sample's misc.
fn mode_of(misc: u16) -> Mode
    requires { (misc ≡ 1) ⊎ (misc ≡ 2) }
    ensures { misc_of result ≡ misc }
{
    match misc {
        1 => Mode::Kernel,
        _ => Mode::User,
    }
}

// The list of some words.
fn list_of(words: &[u64]) -> RecordWords
    requires { length words.now ≤ 9 }
    ensures { result ≡ words.now }
{
    let mut list = RecordWords::new();
    push_all(&mut list, words);
    list
}
