//! How many records were written and lost.

ghost use Rattle.std.specs.Prelude.{◌≡◌, length, sum_by};
ghost use Rattle.run_end.specs.Ended.{words_in};
ghost use Rattle.report.specs.Told.{cut_records};

use run_end::{Ended, RingEnd};
use sample_records::header_of;

/// How many records words are cut into: each has as many words as its first word's size field says, but at least that
/// word and at most the words that are left.
pub fn record_count(words: &[u64]) -> u64
    ensures { result ≡ length (cut_records words.now) }
{
    let mut count = 0;
    let mut rest = words;
    while !rest.is_empty() {
        let size = usize::from(header_of(rest[0]).size / 8);
        rest = &rest[size.clamp(1, rest.len())..];
        count += 1;
    }
    count
}

/// How many records were written on the rings of a run.
pub fn count_written(ended: &Ended) -> u128
    ensures { result ≡ sum_by (λ e. length (cut_records (words_in ended.now.ins e.ring))) ended.now.ends }
{
    let mut count = 0;
    for end in ended.ring_ends() {
        count += u128::from(record_count(ended.words(end.ring)));
    }
    count
}

/// How many records were lost on rings, those among them that no LOST record has stated.
pub fn count_lost(ends: &[RingEnd]) -> u128
    ensures { result ≡ sum_by (λ e. e.numbers.lost) ends.now }
{
    let mut count = 0;
    for end in ends {
        count += u128::from(end.numbers.lost);
    }
    count
}
