//! Summing up what is left of a run.

ghost use Rattle.std.specs.Prelude.{◌≡◌, List, sum_by};
ghost use Rattle.perf_base.specs.declared.numbers.RingNo.{RingNo};
ghost use Rattle.ring_spec.specs.Account.{Account};
ghost use Rattle.report.specs.Told.{AreTold, rings_of};
ghost use Rattle.report.specs.Summary as spec;

use crate::records::{count_lost, count_written};
use perf_base::{Answers, Reply};
use run_end::Ended;

/// What a report sums up to.
#[derive(Clone, Copy, PartialEq, Eq, Debug)]
pub struct Totals {
    /// How many lines the processors and tools of the script have.
    pub lines: u64,
    /// The first words of all reads, added up.
    pub sum: u128,
    /// How many records were written on all rings, LOST records among them.
    pub records: u128,
    /// How many records were lost on all rings, those among them that no LOST record has stated.
    pub lost: u128,
}

/// What the report of the script of N rounds sums up to.
#[derive(Clone, Copy, PartialEq, Eq, Debug)]
pub struct Summary {
    pub rounds: u32,
    pub totals: Totals,
}

/// The first word of a read, 0 of any other answer and of a read of no word.
fn first_word(reply: &Reply) -> u64
    ensures { result ≡ spec.first_word reply.now }
{
    match reply {
        Reply::Read(words) => words.as_slice().first().copied().unwrap_or(0),
        _ => 0,
    }
}

/// The first words of all reads, added up.
pub fn sum_first_words(answers: &Answers) -> u128
    ensures { result ≡ sum_by (λ a. spec.first_word a.reply) answers.now.items }
{
    let mut sum = 0;
    for place in 0..answers.len() {
        sum += u128::from(first_word(&answers.get(place).reply));
    }
    sum
}

/// What a run sums up to.
fn totals_of(ended: &Ended) -> Totals
    ensures { result ≡ spec.ran_totals ended.now }
{
    Totals {
        lines: ended.script().line_count() as u64,
        sum: sum_first_words(ended.answers()),
        records: count_written(ended),
        lost: count_lost(ended.ring_ends()),
    }
}

/// What the run of a script sums up to that was made of N rounds. The size field of a record's first word says how many
/// words the record has; where it says none, the record is that word, and where it says more than there are, the words
/// that there are.
pub fn summary_of(rounds: u32, ended: &Ended) -> Summary
    ensures rounds { result.rounds ≡ rounds }
    ensures ran { result.totals ≡ spec.ran_totals ended.now }
    ensures totals { (rings : List (RingNo × Account)) → AreTold (rings_of ended.now) rings
        → result.totals ≡ spec.totals_of ended.now.script ended.now.answers rings }
{
    Summary {
        rounds,
        totals: totals_of(ended),
    }
}
