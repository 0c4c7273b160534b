//! Writing processors and their lines.

ghost use Rattle.std.specs.Prelude.{◌≡◌, ◌<◌, ◌≤◌, ◌++◌, [], ◌∷◌, length, map, flat_map, All};
ghost use Rattle.script_spec.specs.Forms.{hit_text, mode_text};
ghost use Rattle.script_spec.specs.Printing.{hits_of, cpu_form, processor_forms, all_processor_forms, line_text};
ghost use Rattle.perf_io.specs.Wrote.{Wrote};
ghost use Rattle.perf_base.specs.Scripts.{lines_of_cpu};
ghost use Rattle.script_print.specs.Words.{all_word_texts, spaced, hit_piece};
ghost use Rattle.perf_base.specs.declared.lines.CpuLine.TheVariants as cpu_line;

use crate::entries::{Entry, put_section};
use crate::words::{Word, put_line, put_start};
use perf_base::{CpuLine, CpuNo, Mode, Name, Script, TaskNo, Work};
use perf_io::{Failed, Sink, write_all, write_numbered};

/// Writes a switch.
fn put_switch<K: Sink>(sink: &mut K, to: Option<TaskNo>) -> Result<(), Failed>
    ensures wrote { Wrote K.shows sink.old sink.new result (line_text (cpu_form [] (cpu_line.Switch to))) }
    ensures flushed { K.shows.flushed sink.new ≡ K.shows.flushed sink.old }
{
    match to {
        None => put_line(sink, b"switch", &[Word::Plain(b"idle")]),
        Some(task) => put_line(sink, b"switch", &[Word::Decimal(b"", u64::from(task.0))]),
    }
}

fn mode_name(mode: Mode) -> &'static [u8]
    ensures { result.now ≡ mode_text mode }
{
    match mode {
        Mode::User => b"user",
        Mode::Kernel => b"kernel",
    }
}

/// Writes how often a kind occurs.
#[tactic(auto, using(perf_io::proofs::Wrote::writes))]
fn put_times<K: Sink>(sink: &mut K, name: &Name, times: u64) -> Result<(), Failed>
    ensures wrote { Wrote K.shows sink.old sink.new result (32 ∷ hit_text (record { name = name.now; times = times })) }
    ensures flushed { K.shows.flushed sink.new ≡ K.shows.flushed sink.old }
{
    write_all(sink, b" ")?;
    write_all(sink, name.as_bytes())?;
    write_numbered(sink, b"=", times)
}

/// Writes how often a kind occurs, or nothing where it does not.
fn put_hit<K: Sink>(sink: &mut K, name: &Name, times: u64) -> Result<(), Failed>
    ensures wrote { Wrote K.shows sink.old sink.new result (hit_piece name.now times) }
    ensures flushed { K.shows.flushed sink.new ≡ K.shows.flushed sink.old }
{
    if times == 0 {
        return Ok(());
    }
    put_times(sink, name, times)
}

/// Writes how often each kind occurs that does, in their declared order.
fn put_hits<K: Sink>(sink: &mut K, script: &Script, hits: &[u64; 16]) -> Result<(), Failed>
    ensures wrote { Wrote K.shows sink.old sink.new result (spaced (map hit_text (hits_of script.now.kinds hits.now))) }
    ensures flushed { K.shows.flushed sink.new ≡ K.shows.flushed sink.old }
{
    for kind in 0..script.kinds() {
        put_hit(sink, &script.name(kind), hits[kind])?;
    }
    Ok(())
}

/// Writes a line of words and of how often each kind occurs.
#[tactic(auto, using(perf_io::proofs::Wrote::writes))]
fn put_hits_line<K: Sink>(
    sink: &mut K,
    first: &[u8],
    words: &[Word],
    script: &Script,
    hits: &[u64; 16],
) -> Result<(), Failed>
    ensures wrote { Wrote K.shows sink.old sink.new result ((first.now ++ spaced (all_word_texts words.now)) ++ (spaced (map hit_text (hits_of script.now.kinds hits.now)) ++ 10 ∷ [])) }
    ensures flushed { K.shows.flushed sink.new ≡ K.shows.flushed sink.old }
{
    put_start(sink, first, words)?;
    put_hits(sink, script, hits)?;
    write_all(sink, b"\n")
}

/// Writes a stretch of work.
fn put_work<K: Sink>(sink: &mut K, script: &Script, work: &Work) -> Result<(), Failed>
    ensures wrote { Wrote K.shows sink.old sink.new result (line_text (cpu_form script.now.kinds (cpu_line.Work work.now))) }
    ensures flushed { K.shows.flushed sink.new ≡ K.shows.flushed sink.old }
{
    let words = [
        Word::Decimal(b"", work.length),
        Word::Plain(mode_name(work.mode)),
        Word::hexadecimal_if(b"ip=", work.ip),
    ];
    put_hits_line(sink, b"work", &words, script, &work.hits)
}

impl Entry for CpuLine {
    ghost form = { λ script. cpu_form script.kinds };

    fn put<K: Sink>(&self, sink: &mut K, script: &Script) -> Result<(), Failed> {
        match self {
            CpuLine::Switch(to) => put_switch(sink, *to),
            CpuLine::Work(work) => put_work(sink, script, work),
            CpuLine::Tick => put_line(sink, b"tick", &[]),
            CpuLine::Fork(task) => put_line(
                sink,
                b"fork",
                &[Word::Decimal(b"", u64::from(task.0))],
            ),
            CpuLine::Exit => put_line(sink, b"exit", &[]),
        }
    }
}

/// Writes all processors that have lines.
pub fn put_processors<K: Sink>(sink: &mut K, script: &Script) -> Result<(), Failed>
    ensures wrote { Wrote K.shows sink.old sink.new result (flat_map line_text (all_processor_forms script.now)) }
    ensures flushed { K.shows.flushed sink.new ≡ K.shows.flushed sink.old }
{
    for cpu in 0..8 {
        put_section(
            sink,
            script,
            b"processor",
            cpu,
            script.cpu_lines(CpuNo(cpu)),
        )?;
    }
    Ok(())
}
