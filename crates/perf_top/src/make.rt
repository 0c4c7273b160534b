//! The script of a number of rounds, and its summary or its text.

ghost use Rattle.std.specs.Prelude.{◌≡◌, ◌≤◌, IfOk};
ghost use Rattle.work_maker.specs.Rounds.{script_of_rounds};
ghost use Rattle.report.specs.Summary.{summary_text};
ghost use Rattle.perf_book.specs.Ending.{IsEnd};
ghost use Rattle.perf_top.specs.Outcome.{IsEnding, IsSummary};

use crate::ready::Ready;
use crate::run::send;
use perf_ask::{Asked, Rounds, Status};
use perf_base::{NoMemory, Script};
use perf_io::{Failed, Sink, Written};
use report::{Summary, summary_of, write_summary};
use run_end::Ended;
use script_print::print_script;
use std::alloc::Global;
use work_maker::make;

/// A made script with all memory that its own order needs.
#[derive(Drop)]
pub struct Made {
    pub rounds: Rounds,
    pub ready: Ready,
    ghost made: { ready ≡ script_of_rounds rounds },
}

/// Takes all memory that a made script needs.
fn ready_of(alloc: Global, rounds: u32, script: Script) -> Result<Ready, NoMemory>
    requires few { rounds ≤ 1000 }
    requires made { script ≡ script_of_rounds rounds }
    ensures { IfOk result (λ ready. ready ≡ script_of_rounds rounds) }
{
    Ready::new(alloc, script)
}

impl Made {
    /// Makes the script of a number of rounds, and takes all memory that its own order needs.
    pub fn new(alloc: Global, rounds: Rounds) -> Result<Made, NoMemory>
        ensures { IfOk result (λ made. made.rounds ≡ rounds) }
    {
        let number = rounds.number();
        let script = make(alloc, number)?;
        let ready = ready_of(alloc, number, script)?;
        Ok(Made { rounds, ready })
    }
}

/// What is left of a made script, once its own order was done. That is complete and has no look.
fn replay_made(ready: Ready, rounds: u32) -> Ended
    requires { ready ≡ script_of_rounds rounds }
    ensures script { result.script ≡ script_of_rounds rounds }
    ensures order { result.order ≡ (script_of_rounds rounds).order }
    ensures ended { IsEnd result }
{
    match ready.replay() {
        Ok(replayed) => replayed.finish(),
        Err(_) => unreachable!(),
    }
}

/// What a made script sums up to.
fn sum_up(ready: Ready, rounds: u32) -> Summary
    requires few { (1 ≤ rounds) × (rounds ≤ 1000) }
    requires made { ready ≡ script_of_rounds rounds }
    ensures { IsSummary rounds (script_of_rounds rounds) (summary_text result.rounds result.totals) }
{
    let ended = replay_made(ready, rounds);
    summary_of(rounds, &ended)
}

/// The summary of a made script, as a text.
#[derive(Drop)]
struct SummaryText {
    summary: Summary,
}

impl Written for SummaryText {
    ghost use Rattle.report.specs.Summary.{summary_text};

    ghost text = { λ t. summary_text t.summary.rounds t.summary.totals };

    fn write_to<K: Sink>(&self, sink: &mut K) -> Result<(), Failed> {
        write_summary(sink, &self.summary)
    }
}

/// Does the own order of a made script, and writes its summary.
pub fn print_summary<K: Sink>(made: Made, sink: &mut K) -> Status
    ensures count { K.shows.faults sink.old ≤ K.shows.faults sink.new }
    ensures ending { IsEnding K.shows (Asked.Make made.rounds) made.ready result sink.old sink.new }
{
    let Made { rounds, ready } = made;
    let summary = sum_up(ready, rounds.number());
    send(sink, &SummaryText { summary })
}

/// A made script, as a text.
#[derive(Drop)]
pub struct ScriptText {
    pub rounds: Rounds,
    pub script: Script,
    ghost made: { script ≡ script_of_rounds rounds },
}

impl ScriptText {
    /// Makes the script of a number of rounds.
    pub fn new(alloc: Global, rounds: Rounds) -> Result<ScriptText, NoMemory>
        ensures { IfOk result (λ text. text.rounds ≡ rounds) }
    {
        let script = make(alloc, rounds.number())?;
        Ok(ScriptText { rounds, script })
    }
}

impl Written for ScriptText {
    ghost use Rattle.work_maker.specs.Rounds.{script_of_rounds};
    ghost use Rattle.script_spec.specs.Printing.{printed};

    ghost text = { λ t. printed (script_of_rounds t.rounds) };

    fn write_to<K: Sink>(&self, sink: &mut K) -> Result<(), Failed> {
        print_script(&self.script, sink)
    }
}

/// Writes a made script.
pub fn print_made<K: Sink>(text: &ScriptText, sink: &mut K) -> Status
    ensures count { K.shows.faults sink.old ≤ K.shows.faults sink.new }
    ensures ending { IsEnding K.shows (Asked.MadeScript text.now.rounds) text.now.script result sink.old sink.new }
{
    send(sink, text)
}
