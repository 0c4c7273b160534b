//! Printing a script.

ghost use Rattle.std.specs.Prelude.{◌≡◌, ◌≤◌, ◌++◌, ◌∷◌, []};
ghost use Rattle.perf_base.specs.Scripts.{IsCovered};
ghost use Rattle.perf_base.specs.Weight.{weight};
ghost use Rattle.script_spec.specs.Texts.{StandsFor};
ghost use Rattle.script_spec.specs.Acts.{act_text, acts_text};
ghost use Rattle.script_spec.specs.Printing.{order_forms, printed};
ghost use Rattle.perf_io.specs.Wrote.{Wrote};
ghost use Rattle.script_print.specs.Words.{text, declared_text, lines_text, last_text};

use crate::acts::write_act;
use crate::cpu_lines::put_processors;
use crate::declared::{put_head, put_kinds};
use crate::entries::put_entries;
use crate::tool_lines::put_tools;
use crate::words::put_line;
use perf_base::{Act, Script};
use perf_io::{Failed, Sink, write_all};

/// Writes what a script declares.
#[tactic(auto, using(perf_io::proofs::Wrote::writes), unfolding(crate::specs::Words::declared_text))]
fn put_declared<K: Sink>(sink: &mut K, script: &Script) -> Result<(), Failed>
    requires { IsCovered script.now }
    ensures wrote { Wrote K.shows sink.old sink.new result (declared_text script.now) }
    ensures flushed { K.shows.flushed sink.new ≡ K.shows.flushed sink.old }
{
    put_head(sink, script)?;
    put_kinds(sink, script)?;
    put_entries(sink, script, script.tasks())?;
    put_entries(sink, script, script.rings())
}

/// Writes the lines of processors, tools and readers.
#[tactic(auto, using(perf_io::proofs::Wrote::writes), unfolding(crate::specs::Words::lines_text))]
fn put_lines<K: Sink>(sink: &mut K, script: &Script) -> Result<(), Failed>
    ensures wrote { Wrote K.shows sink.old sink.new result (lines_text script.now) }
    ensures flushed { K.shows.flushed sink.new ≡ K.shows.flushed sink.old }
{
    put_processors(sink, script)?;
    put_tools(sink, script)?;
    put_entries(sink, script, script.readers())
}

/// Writes an act with a space before it.
#[tactic(auto, using(perf_io::proofs::Wrote::writes))]
fn put_act<K: Sink>(sink: &mut K, act: &Act) -> Result<(), Failed>
    ensures wrote { Wrote K.shows sink.old sink.new result (32 ∷ act_text act.now) }
    ensures flushed { K.shows.flushed sink.new ≡ K.shows.flushed sink.old }
{
    write_all(sink, b" ")?;
    write_act(act, sink)
}

/// Writes acts, a space before each. Where a call of the sink fails, some front of the text stays added.
pub fn put_acts<K: Sink>(sink: &mut K, acts: &[Act]) -> Result<(), Failed>
    ensures wrote { Wrote K.shows sink.old sink.new result (acts_text acts.now) }
    ensures flushed { K.shows.flushed sink.new ≡ K.shows.flushed sink.old }
{
    for act in acts {
        put_act(sink, act)?;
    }
    Ok(())
}

/// Writes a line of a word and acts.
#[tactic(auto, using(perf_io::proofs::Wrote::writes))]
fn put_acts_line<K: Sink>(sink: &mut K, first: &[u8], acts: &[Act]) -> Result<(), Failed>
    ensures wrote { Wrote K.shows sink.old sink.new result (first.now ++ (acts_text acts.now ++ 10 ∷ [])) }
    ensures flushed { K.shows.flushed sink.new ≡ K.shows.flushed sink.old }
{
    write_all(sink, first)?;
    put_acts(sink, acts)?;
    write_all(sink, b"\n")
}

/// Writes the order line, or nothing where the order is empty.
fn put_order<K: Sink>(sink: &mut K, acts: &[Act]) -> Result<(), Failed>
    ensures wrote { Wrote K.shows sink.old sink.new result (text (order_forms acts.now)) }
    ensures flushed { K.shows.flushed sink.new ≡ K.shows.flushed sink.old }
{
    if acts.is_empty() {
        return Ok(());
    }
    put_acts_line(sink, b"order", acts)
}

/// Writes the order and the end.
#[tactic(auto, using(perf_io::proofs::Wrote::writes), unfolding(crate::specs::Words::last_text))]
fn put_last<K: Sink>(sink: &mut K, acts: &[Act]) -> Result<(), Failed>
    ensures wrote { Wrote K.shows sink.old sink.new result (last_text acts.now) }
    ensures flushed { K.shows.flushed sink.new ≡ K.shows.flushed sink.old }
{
    put_order(sink, acts)?;
    put_line(sink, b"end", &[])
}

/// Writes all parts of a script, with these acts as its order.
#[tactic(auto, using(perf_io::proofs::Wrote::writes))]
fn put_parts<K: Sink>(sink: &mut K, script: &Script, acts: &[Act]) -> Result<(), Failed>
    requires { IsCovered script.now }
    ensures wrote { Wrote K.shows sink.old sink.new result (declared_text script.now ++ (lines_text script.now ++ last_text acts.now)) }
    ensures flushed { K.shows.flushed sink.new ≡ K.shows.flushed sink.old }
{
    put_declared(sink, script)?;
    put_lines(sink, script)?;
    put_last(sink, acts)
}

/// Writes the printed text of a script: missing values, kinds that do not occur and processors and tools
/// without lines are left out, and the order stands on one line. Each processor of the script's machine has
/// to be of a PMU. It takes no memory. Where a call of the sink fails, some front of the text stays added.
#[tactic(auto, using(crate::proofs::Stands::printed_stands))]
pub fn print_script<K: Sink>(script: &Script, sink: &mut K) -> Result<(), Failed>
    requires { IsCovered script.now }
    ensures wrote { Wrote K.shows sink.old sink.new result (printed script.now) }
    ensures flushed { K.shows.flushed sink.new ≡ K.shows.flushed sink.old }
    // The text stands for the script, unless it is too heavy to be read.
    ensures stands { weight script.now ≤ 65536 → StandsFor (printed script.now) script.now }
{
    let order = script.order();
    put_parts(sink, script, order)
}
