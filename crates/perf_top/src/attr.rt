//! The line that is written of the bytes of an attribute.

ghost use Rattle.std.specs.Prelude.{◌≡◌};
ghost use Rattle.perf_io.specs.Wrote.{Wrote};
ghost use Rattle.perf_top.specs.Attributes.{IsLineOf, words_of_attr, words_of_fault, line_of_words};

use crate::line::Line;
use attr_bytes::{AttrFault, RawAttr, read_attr};
use perf_io::{Failed, Sink};
use script_print::{Word, put_line};

/// Writes the line of an attribute.
fn put_attr<K: Sink>(sink: &mut K, raw: RawAttr) -> Result<(), Failed>
    ensures { Wrote K.shows sink.old sink.new result (line_of_words (words_of_attr raw)) }
{
    put_line(
        sink,
        b"attr",
        &[
            Word::Decimal(b"type=", u64::from(raw.class)),
            Word::Decimal(b"config=", raw.config),
            Word::Decimal(b"period=", raw.period),
            Word::Hexadecimal(b"sample=", raw.sample),
            Word::Hexadecimal(b"format=", raw.format),
            Word::flags_if(raw.flags),
        ],
    )
}

/// Writes the line of a fault.
fn put_fault<K: Sink>(sink: &mut K, fault: AttrFault) -> Result<(), Failed>
    ensures { Wrote K.shows sink.old sink.new result (line_of_words (words_of_fault fault)) }
{
    put_line(sink, b"attr", &[Word::Plain(fault.printed().as_bytes())])
}

/// The line of an attribute.
fn line_of_attr(raw: RawAttr) -> Line
    ensures { result.text ≡ line_of_words (words_of_attr raw) }
{
    let mut line = Line::new();
    match put_attr(&mut line, raw) {
        Ok(()) => line,
        Err(_) => unreachable!(),
    }
}

/// The line of a fault.
fn line_of_fault(fault: AttrFault) -> Line
    ensures { result.text ≡ line_of_words (words_of_fault fault) }
{
    let mut line = Line::new();
    match put_fault(&mut line, fault) {
        Ok(()) => line,
        Err(_) => unreachable!(),
    }
}

/// The line of bytes.
pub fn line_of(bytes: &[u8]) -> Line
    ensures { IsLineOf bytes.now result.text }
{
    match read_attr(bytes) {
        Ok(raw) => line_of_attr(raw),
        Err(fault) => line_of_fault(fault),
    }
}
