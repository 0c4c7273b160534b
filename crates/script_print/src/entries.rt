//! What has a line of its own in a script, and lists of these.

ghost use Rattle.std.specs.Prelude.{◌≡◌, map, All};
ghost use Rattle.perf_io.specs.Wrote.{Wrote};
ghost use Rattle.script_spec.specs.Printing.{line_text};
ghost use Rattle.script_print.specs.Words.{text, section_text};

use crate::words::{Word, put_line};
use perf_base::Script;
use perf_io::{Failed, Sink};

/// What has a line of its own in a script.
pub trait Entry {
    ghost use Rattle.perf_base.specs.Scripts.{Scripted};
    ghost use Rattle.script_spec.specs.Forms.{Form};

    // Whether a script may have it. Of most entries nothing is asked.
    ghost fits: { Scripted → Self → Type 0 } = { λ script entry. Unit {0} };

    // The form of its line in a script.
    ghost form: { Scripted → Self → Form };

    /// Writes its line.
    fn put<K: Sink>(&self, sink: &mut K, script: &Script) -> Result<(), Failed>
        requires { fits script.now self.now }
        ensures wrote { Wrote K.shows sink.old sink.new result (line_text (form script.now self.now)) }
        ensures flushed { K.shows.flushed sink.new ≡ K.shows.flushed sink.old };
}

/// Writes a line for each entry.
pub fn put_entries<K: Sink, E: Entry>(
    sink: &mut K,
    script: &Script,
    entries: &[E],
) -> Result<(), Failed>
    requires { All (E.fits script.now) entries.now }
    ensures wrote { Wrote K.shows sink.old sink.new result (text (map (E.form script.now) entries.now)) }
    ensures flushed { K.shows.flushed sink.new ≡ K.shows.flushed sink.old }
{
    for entry in entries {
        entry.put(sink, script)?;
    }
    Ok(())
}

/// Writes the header of a processor or a tool and its lines, or nothing where it has none.
pub fn put_section<K: Sink, E: Entry>(
    sink: &mut K,
    script: &Script,
    header: &[u8],
    number: u8,
    lines: &[E],
) -> Result<(), Failed>
    requires { All (E.fits script.now) lines.now }
    ensures wrote { Wrote K.shows sink.old sink.new result (section_text header.now number (map (E.form script.now) lines.now)) }
    ensures flushed { K.shows.flushed sink.new ≡ K.shows.flushed sink.old }
{
    if lines.is_empty() {
        return Ok(());
    }
    put_line(sink, header, &[Word::Decimal(b"", u64::from(number))])?;
    put_entries(sink, script, lines)
}
