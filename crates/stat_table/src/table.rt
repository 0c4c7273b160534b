//! Writing the table. It takes no memory.

ghost use Rattle.std.specs.Prelude.{◌≡◌, ◌+◌, ◌-◌, ◌<◌, ◌≤◌, ◌^◌, ◌++◌, All, codes, decimal, flat_map, length, replicate};
ghost use Rattle.perf_io.specs.Wrote.{Wrote};
ghost use Rattle.stat_table.specs.Estimates.{estimate_of, share_of};
ghost use Rattle.stat_table.specs.Table.{right, left, estimate_text, share_text, numbers_text, row_text, table_text};

use crate::estimates::{estimate, share};
use crate::row::StatRow;
use crate::text::{Text, push_all, push_column, push_count, push_number, push_right, push_spaces};
use itoa::Buffer;
use perf_io::{Failed, Sink, write_all, write_numbered};

/// The entry of a share.
fn share_entry(share: Option<u64>) -> Text
    ensures text { result ≡ share_text share }
    ensures short { length result ≤ 63 }
{
    let mut entry = Text::new();
    match share {
        None => entry.push(b'-'),
        Some(part) => {
            push_number(&mut entry, part / 100);
            entry.push(b'.');
            push_number(&mut entry, part / 10 % 10);
            push_number(&mut entry, part % 10);
            entry.push(b'%');
        }
    }
    entry
}

/// Adds the column of an estimate.
fn push_estimate(text: &mut Text, error: bool, estimate: Option<u128>)
    requires { length text.old + 64 ≤ 352 }
    ensures added { text.new ≡ text.old ++ codes " " ++ right 27 (estimate_text error estimate) }
    ensures short { length text.new ≤ length text.old + 64 }
{
    if error {
        return push_column(text, 27, b"error");
    }
    match estimate {
        None => push_column(text, 27, b"-"),
        Some(n) => push_column(text, 27, Buffer::new().format(n).as_bytes()),
    }
}

/// Adds the columns of numbers.
fn push_numbers(text: &mut Text, row: &StatRow)
    requires few { row.now.sums.running < 2 ^ 44 }
    requires room { length text.old + 320 ≤ 352 }
    ensures added { text.new ≡ text.old ++ numbers_text row.now }
    ensures short { length text.new ≤ length text.old + 320 }
{
    let sums = row.sums;
    push_count(text, sums.count);
    push_count(text, sums.enabled);
    push_count(text, sums.running);
    let estimate = estimate(sums.count, sums.enabled, sums.running);
    push_estimate(text, row.error, estimate);
    let share = share_entry(share(sums.enabled, sums.running));
    push_column(text, 7, share.as_bytes());
}

/// What stands before the name of a row.
fn head_of(row: &StatRow) -> Text
    ensures { result ≡ right 3 (decimal row.now.event.0) ++ codes " " }
{
    let mut text = Text::new();
    let mut buffer = Buffer::new();
    push_right(&mut text, 3, buffer.format(row.event.0).as_bytes());
    text.push(b' ');
    text
}

/// What stands behind the name of a row.
fn tail_of(row: &StatRow) -> Text
    requires { row.now.sums.running < 2 ^ 44 }
    ensures { result ≡ replicate (31 - length row.now.name) 32 ++ numbers_text row.now ++ codes "\n" }
{
    let mut text = Text::new();
    push_spaces(&mut text, 31usize.saturating_sub(row.name.len()));
    push_numbers(&mut text, row);
    text.push(b'\n');
    text
}

/// Writes three texts.
#[tactic(auto, using(perf_io::proofs::Wrote::writes))]
fn write_three<K: Sink>(
    sink: &mut K,
    first: &[u8],
    second: &[u8],
    third: &[u8],
) -> Result<(), Failed>
    ensures wrote { Wrote K.shows sink.old sink.new result (first.now ++ second.now ++ third.now) }
    ensures flushed { K.shows.flushed sink.new ≡ K.shows.flushed sink.old }
{
    write_all(sink, first)?;
    write_all(sink, second)?;
    write_all(sink, third)
}

/// Writes a row, by three calls where the sink takes all that it is given.
fn write_row<K: Sink>(sink: &mut K, row: &StatRow) -> Result<(), Failed>
    requires { row.now.sums.running < 2 ^ 44 }
    ensures wrote { Wrote K.shows sink.old sink.new result (row_text row.now) }
    ensures flushed { K.shows.flushed sink.new ≡ K.shows.flushed sink.old }
{
    let head = head_of(row);
    let tail = tail_of(row);
    write_three(sink, head.as_bytes(), row.name.as_bytes(), tail.as_bytes())
}

/// Writes rows.
fn write_rows<K: Sink>(sink: &mut K, rows: &[StatRow]) -> Result<(), Failed>
    requires { All (λ row. row.sums.running < 2 ^ 44) rows.now }
    ensures wrote { Wrote K.shows sink.old sink.new result (flat_map row_text rows.now) }
    ensures flushed { K.shows.flushed sink.new ≡ K.shows.flushed sink.old }
{
    for row in rows {
        write_row(sink, row)?;
    }
    Ok(())
}

/// Writes a text, a number and another text.
#[tactic(auto, using(perf_io::proofs::Wrote::writes))]
fn write_head<K: Sink>(sink: &mut K, head: &[u8], count: u64, between: &[u8]) -> Result<(), Failed>
    ensures wrote { Wrote K.shows sink.old sink.new result (head.now ++ decimal count ++ between.now) }
    ensures flushed { K.shows.flushed sink.new ≡ K.shows.flushed sink.old }
{
    write_numbered(sink, head, count)?;
    write_all(sink, between)
}

/// Writes a text, the number of rows, another text, the rows and a third text.
#[tactic(auto, using(perf_io::proofs::Wrote::writes))]
fn write_framed<K: Sink>(
    sink: &mut K,
    head: &[u8],
    rows: &[StatRow],
    between: &[u8],
    end: &[u8],
) -> Result<(), Failed>
    requires { All (λ row. row.sums.running < 2 ^ 44) rows.now }
    ensures wrote { Wrote K.shows sink.old sink.new result (head.now ++ decimal (length rows.now) ++ between.now ++ flat_map row_text rows.now ++ end.now) }
    ensures flushed { K.shows.flushed sink.new ≡ K.shows.flushed sink.old }
{
    write_head(sink, head, rows.len() as u64, between)?;
    write_rows(sink, rows)?;
    write_all(sink, end)
}

/// Writes the table of these rows, in their order, where each time on a counter is below 2^44. Where a call of
/// the sink fails, some front of the table stays added.
pub fn write_table<K: Sink>(rows: &[StatRow], sink: &mut K) -> Result<(), Failed>
    requires { All (λ row. row.sums.running < 2 ^ 44) rows.now }
    ensures wrote { Wrote K.shows sink.old sink.new result (table_text rows.now) }
    ensures flushed { K.shows.flushed sink.new ≡ K.shows.flushed sink.old }
{
    write_framed(sink, b"stat ", rows, b"\n", b"end\n")
}
