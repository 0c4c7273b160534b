//! Writing the words of an answer.

ghost use Rattle.std.specs.Prelude.{◌≡◌, ◌∷◌, ◌++◌, codes, decimal, flat_map};
ghost use Rattle.perf_io.specs.Wrote.{Wrote};
ghost use Rattle.report_spec.specs.Report.{cause_text, numbers_text, reason_text, slots_text, why_text};
ghost use Rattle.report.specs.Said.{said, seat_text};

use perf_base::{Cause, EventNo, Reason, Reply, Rule, Why};
use perf_io::{Failed, Sink, write_all, write_numbered};

/// Writes numbers with a space before each.
fn put_numbers<K: Sink>(sink: &mut K, words: &[u64]) -> Result<(), Failed>
    ensures wrote { Wrote K.shows sink.old sink.new result (numbers_text words.now) }
    ensures flushed { K.shows.flushed sink.new ≡ K.shows.flushed sink.old }
{
    for word in words {
        write_numbered(sink, b" ", *word)?;
    }
    Ok(())
}

/// Writes the slot of an event with a space before it.
fn put_slot<K: Sink>(sink: &mut K, slot: EventNo) -> Result<(), Failed>
    ensures wrote { Wrote K.shows sink.old sink.new result (32 ∷ decimal slot.0) }
    ensures flushed { K.shows.flushed sink.new ≡ K.shows.flushed sink.old }
{
    write_numbered(sink, b" ", u64::from(slot.0))
}

/// Writes slots with a space before each.
fn put_slots<K: Sink>(sink: &mut K, slots: &[EventNo]) -> Result<(), Failed>
    ensures wrote { Wrote K.shows sink.old sink.new result (slots_text slots.now) }
    ensures flushed { K.shows.flushed sink.new ≡ K.shows.flushed sink.old }
{
    for slot in slots {
        put_slot(sink, *slot)?;
    }
    Ok(())
}

/// Writes a word and slots behind it.
#[tactic(auto, using(perf_io::proofs::Wrote::writes))]
fn put_set<K: Sink>(sink: &mut K, word: &[u8], slots: &[EventNo]) -> Result<(), Failed>
    ensures wrote { Wrote K.shows sink.old sink.new result (word.now ++ slots_text slots.now) }
    ensures flushed { K.shows.flushed sink.new ≡ K.shows.flushed sink.old }
{
    write_all(sink, word)?;
    put_slots(sink, slots)
}

/// Writes the reason why a line is refused.
fn put_reason<K: Sink>(sink: &mut K, reason: &Reason) -> Result<(), Failed>
    ensures wrote { Wrote K.shows sink.old sink.new result (reason_text reason.now) }
    ensures flushed { K.shows.flushed sink.new ≡ K.shows.flushed sink.old }
{
    match reason {
        Reason::NoAssignment(set) => put_set(sink, reason.printed().as_bytes(), set.as_slice()),
        _ => write_all(sink, reason.printed().as_bytes()),
    }
}

/// Writes the cause for which a group is not on.
fn put_cause<K: Sink>(sink: &mut K, cause: &Cause) -> Result<(), Failed>
    ensures wrote { Wrote K.shows sink.old sink.new result (cause_text cause.now) }
    ensures flushed { K.shows.flushed sink.new ≡ K.shows.flushed sink.old }
{
    match cause {
        Cause::Rule(Rule::Exclusive(event)) => write_numbered(
            sink,
            b"exclusive ",
            u64::from(event.0),
        ),
        Cause::Rule(Rule::ExclusiveSelf(event)) => write_numbered(
            sink,
            b"exclusive-self ",
            u64::from(event.0),
        ),
        Cause::Rule(Rule::Earlier(event)) => write_numbered(sink, b"earlier ", u64::from(event.0)),
        Cause::Hall(set) => put_set(sink, b"hall", set.as_slice()),
    }
}

/// Writes that a group is in error, and for which cause.
#[tactic(auto, using(perf_io::proofs::Wrote::writes))]
fn put_error<K: Sink>(sink: &mut K, cause: &Cause) -> Result<(), Failed>
    ensures wrote { Wrote K.shows sink.old sink.new result (codes "error " ++ cause_text cause.now) }
    ensures flushed { K.shows.flushed sink.new ≡ K.shows.flushed sink.old }
{
    write_all(sink, b"error ")?;
    put_cause(sink, cause)
}

/// Writes why an event counts or does not.
fn put_why<K: Sink>(sink: &mut K, why: &Why) -> Result<(), Failed>
    ensures wrote { Wrote K.shows sink.old sink.new result (why_text why.now) }
    ensures flushed { K.shows.flushed sink.new ≡ K.shows.flushed sink.old }
{
    match why {
        Why::Off => write_all(sink, b"off"),
        Why::Failed(cause) => put_error(sink, cause),
        Why::Away => write_all(sink, b"away"),
        Why::On => write_all(sink, b"on"),
        Why::Refused(cause) => put_cause(sink, cause),
    }
}

/// Writes a counter behind an equals sign.
fn put_counter<K: Sink>(sink: &mut K, counter: u8) -> Result<(), Failed>
    ensures wrote { Wrote K.shows sink.old sink.new result (61 ∷ decimal counter) }
    ensures flushed { K.shows.flushed sink.new ≡ K.shows.flushed sink.old }
{
    write_numbered(sink, b"=", u64::from(counter))
}

/// Writes the slot of an event and the counter that it has, a space before them.
fn put_seat<K: Sink>(sink: &mut K, seat: (EventNo, u8)) -> Result<(), Failed>
    ensures wrote { Wrote K.shows sink.old sink.new result (seat_text seat) }
    ensures flushed { K.shows.flushed sink.new ≡ K.shows.flushed sink.old }
{
    put_slot(sink, seat.0)?;
    put_counter(sink, seat.1)
}

/// Writes the counters of a processor.
fn put_seats<K: Sink>(sink: &mut K, seats: &[(EventNo, u8)]) -> Result<(), Failed>
    ensures wrote { Wrote K.shows sink.old sink.new result (flat_map seat_text seats.now) }
    ensures flushed { K.shows.flushed sink.new ≡ K.shows.flushed sink.old }
{
    for seat in seats {
        put_seat(sink, *seat)?;
    }
    Ok(())
}

/// Writes a refusal with a space before it.
#[tactic(auto, using(perf_io::proofs::Wrote::writes))]
fn put_refusal<K: Sink>(sink: &mut K, reason: &Reason) -> Result<(), Failed>
    ensures wrote { Wrote K.shows sink.old sink.new result (32 ∷ reason_text reason.now) }
    ensures flushed { K.shows.flushed sink.new ≡ K.shows.flushed sink.old }
{
    write_all(sink, b" ")?;
    put_reason(sink, reason)
}

/// Writes why an event counts or does not, with a space before it.
#[tactic(auto, using(perf_io::proofs::Wrote::writes))]
fn put_answer_to_why<K: Sink>(sink: &mut K, why: &Why) -> Result<(), Failed>
    ensures wrote { Wrote K.shows sink.old sink.new result (32 ∷ why_text why.now) }
    ensures flushed { K.shows.flushed sink.new ≡ K.shows.flushed sink.old }
{
    write_all(sink, b" ")?;
    put_why(sink, why)
}

/// Writes the words of an answer with a space before each, and nothing for a plain Ok.
pub fn put_reply<K: Sink>(sink: &mut K, reply: &Reply) -> Result<(), Failed>
    ensures wrote { Wrote K.shows sink.old sink.new result (said reply.now) }
    ensures flushed { K.shows.flushed sink.new ≡ K.shows.flushed sink.old }
{
    match reply {
        Reply::Ok => Ok(()),
        Reply::Refused(reason) => put_refusal(sink, reason),
        Reply::Read(words) => put_numbers(sink, words.as_slice()),
        Reply::Why(why) => put_answer_to_why(sink, why),
        Reply::Seats(seats) => put_seats(sink, seats.as_slice()),
    }
}
