//! The top call: it reads a script to its end, does its order, or runs it by threads, with or without a watcher, and
//! writes the report, or the table of what its events have counted; or it makes a script and writes what its report
//! sums up to, or the script itself; or it writes what the bytes of an attribute say. Its contract speaks of the bytes
//! that the source had left and of those that the sink and the notes hold. It serves the program.
#![tactic(auto)]

ghost use Rattle.std.specs.Prelude.{◌≡◌, ◌⊎◌, ◌↔◌, ◌≤◌, IfErr, IfOk, Ok, Some, map, string_bytes};
ghost use Rattle.perf_io.specs.Outside.{Rose};
ghost use Rattle.perf_ask.specs.Asking.{AreKnown, Asks, DoesOrder, ReadsScript};
ghost use Rattle.perf_top.specs.Outcome.{CanBeDone, IsAnswer, IsDone, IsNoted};

mod attr;
mod job;
mod line;
mod make;
mod ready;
mod run;
mod running;
mod stat;
mod watching;

pub use job::Job;
pub use line::Line;
pub use perf_ask::{Asked, Rounds, Status, Watching, asked_by, put_note, words_ask_one_thing};
use perf_book::Gate;
pub use perf_book::OpenGate;
use perf_io::{CalmSink, CalmSource, Sink, Source};
pub use running::RunJob;
use std::alloc::Global;
use std::sync::Wait;
use std::thread::Threads;
pub use watching::WatchJob;

/// Answers what is asked for, but a run by threads: it reads, judges and takes all memory by `Job::reserve`, and then
/// does and writes by `Job::finish`. It starts no thread and waits for nobody, so it returns.
pub fn answer_alone<S: Source, K: Sink>(
    alloc: Global,
    asked: Asked,
    source: &mut S,
    sink: &mut K,
) -> Status
    requires alone { ReadsScript asked → DoesOrder asked }
    ensures counts { (S.shows.faults source.old ≤ S.shows.faults source.new) × (K.shows.faults sink.old ≤ K.shows.faults sink.new) }
    ensures answer { IsAnswer S.shows K.shows asked result source.old source.new sink.old sink.new }
{
    match Job::reserve(alloc, asked, source) {
        Err(status) => status,
        Ok(job) => job.finish(sink),
    }
}

/// Answers where a run by threads is asked for: it takes all memory by `RunJob::reserve`, and then runs and writes by
/// `RunJob::finish`.
fn answer_run<R: Threads + Wait + Sync, S: Source, K: Sink, G: Gate + Sync>(
    rt: &R,
    alloc: Global,
    source: &mut S,
    sink: &mut K,
    gate: &G,
) -> Status
    ensures counts { (S.shows.faults source.old ≤ S.shows.faults source.new) × (K.shows.faults sink.old ≤ K.shows.faults sink.new) }
    ensures answer { IsAnswer S.shows K.shows Asked.Run result source.old source.new sink.old sink.new }
{
    match RunJob::reserve(alloc, source) {
        Err(status) => status,
        Ok(job) => job.finish::<R, K, G>(rt, sink, gate),
    }
}

/// The same where a watcher is asked for, by `WatchJob`.
fn answer_watch<R: Threads + Wait + Sync, S: Source, K: Sink, G: Gate + Sync>(
    rt: &R,
    alloc: Global,
    watching: Watching,
    source: &mut S,
    sink: &mut K,
    gate: &G,
) -> Status
    ensures counts { (S.shows.faults source.old ≤ S.shows.faults source.new) × (K.shows.faults sink.old ≤ K.shows.faults sink.new) }
    ensures answer { IsAnswer S.shows K.shows (Asked.Watch watching) result source.old source.new sink.old sink.new }
{
    match WatchJob::reserve(alloc, watching, source) {
        Err(status) => status,
        Ok(job) => job.finish::<R, K, G>(rt, sink, gate),
    }
}

/// Answers where a run by threads is asked for, with a watcher or without.
fn answer_threads<R: Threads + Wait + Sync, S: Source, K: Sink, G: Gate + Sync>(
    rt: &R,
    alloc: Global,
    asked: Asked,
    source: &mut S,
    sink: &mut K,
    gate: &G,
) -> Status
    requires threads { ReadsScript asked × (DoesOrder asked → ⊥) }
    ensures counts { (S.shows.faults source.old ≤ S.shows.faults source.new) × (K.shows.faults sink.old ≤ K.shows.faults sink.new) }
    ensures answer { IsAnswer S.shows K.shows asked result source.old source.new sink.old sink.new }
{
    match asked {
        Asked::Run => answer_run::<R, S, K, G>(rt, alloc, source, sink, gate),
        Asked::Watch(watching) => {
            answer_watch::<R, S, K, G>(rt, alloc, watching, source, sink, gate)
        }
        _ => unreachable!(),
    }
}

/// Writes the note of an answer other than Done, and gives the answer.
fn noted<N: Sink>(notes: &mut N, status: Status) -> Status
    ensures same { result ≡ status }
    ensures count { N.shows.faults notes.old ≤ N.shows.faults notes.new }
    ensures note { IsNoted N.shows result notes.old notes.new }
{
    if status.is_done() {
        return status;
    }
    match put_note(notes, &status) {
        Ok(()) | Err(_) => status,
    }
}

/// `perf_main` for all words but those of a run by threads: it starts no thread and waits for nobody, so it returns.
/// Where the words ask for such a run, by `run` or `watch`, it gives back what they ask for, and nothing was done.
pub fn main_alone<S: Source, K: Sink, N: Sink>(
    alloc: Global,
    words: &[String],
    source: &mut S,
    sink: &mut K,
    notes: &mut N,
) -> Result<Status, Asked>
    ensures counts { (S.shows.faults source.old ≤ S.shows.faults source.new) × (K.shows.faults sink.old ≤ K.shows.faults sink.new) × (N.shows.faults notes.old ≤ N.shows.faults notes.new) }
    ensures usage { result ≡ Ok Status.Usage ↔ (AreKnown (map string_bytes words.now) → ⊥) }
    ensures unknown { result ≡ Ok Status.Usage → (source.new ≡ source.old) × (sink.new ≡ sink.old) }
    ensures answer { IfOk result (λ status. (status ≡ Status.Usage → ⊥) → (a : Asked) × Asks (map string_bytes words.now) a
        × IsAnswer S.shows K.shows a status source.old source.new sink.old sink.new) }
    ensures complete { IfOk result (λ status. (a : Asked) → Asks (map string_bytes words.now) a → CanBeDone a (S.shows.left source.old)
        → (Rose S.shows.last_fault (S.shows.faults source.old) (S.shows.faults source.new) → ⊥) → (Rose K.shows.last_fault (K.shows.faults sink.old) (K.shows.faults sink.new) → ⊥) → IsDone a status) }
    ensures note { IfOk result (λ status. IsNoted N.shows status notes.old notes.new) }
    // A run by threads is given back, and nothing else is.
    ensures alone { IfOk result (λ status. (a : Asked) → Asks (map string_bytes words.now) a → ReadsScript a → DoesOrder a) }
    ensures threads { IfErr result (λ asked. Asks (map string_bytes words.now) asked × ReadsScript asked × (DoesOrder asked → ⊥)) }
    ensures nothing { IfErr result (λ asked. (source.new ≡ source.old) × (sink.new ≡ sink.old) × (notes.new ≡ notes.old)) }
{
    match asked_by(words) {
        None => Ok(noted(notes, Status::Usage)),
        Some(Asked::Run) => Err(Asked::Run),
        Some(Asked::Watch(watching)) => Err(Asked::Watch(watching)),
        Some(alone) => Ok(noted(notes, answer_alone(alloc, alone, source, sink))),
    }
}

/// Does what the words ask for, those behind the program's name. `replay` reads a script from the source to its end,
/// does its own order, and writes that order and what its lines answered to the sink. `stat` does the same, and writes
/// a table with a row for each event that is open then, by its slot, as perf stat does. `run` reads a script too, and
/// runs it with a thread for each processor, tool and reader: it writes the order that came of it, and its report; each
/// worker passes the gate before each line or try. `watch`, the slot of an event and a number of looks, 1 to 65536,
/// runs it with one thread more, which looks so often at what the event has counted with its copies; behind the
/// report stand its last look and the last one published. A text may have 4194304 bytes. `make` and a number of
/// rounds, 1 to 1000 in decimal, has the script of N rounds made and its own order done, and writes six lines that
/// sum up its report; with `script` behind, it writes that script. It reads nothing. `attr` and the bytes of an
/// attribute, two hexadecimal digits each, writes what they say, or their first fault; it reads nothing and takes no
/// memory. Other words are not known. Each answer but Done is written to the notes as one line. All memory is taken
/// before the first act: where it runs out, nothing was read, or the whole text, and nothing was written.
///
/// Words ask for at most one thing (`words_ask_one_thing`), and on each ring of a report records are conserved
/// (`perf_book::records_are_conserved`). It is `main_alone` for all words but those of a run by threads.
pub fn perf_main<R: Threads + Wait + Sync, S: Source, K: Sink, N: Sink, G: Gate + Sync>(
    rt: &R,
    alloc: Global,
    words: &[String],
    source: &mut S,
    sink: &mut K,
    notes: &mut N,
    gate: &G,
) -> Status
    ensures counts { (S.shows.faults source.old ≤ S.shows.faults source.new) × (K.shows.faults sink.old ≤ K.shows.faults sink.new) × (N.shows.faults notes.old ≤ N.shows.faults notes.new) }
    ensures usage { result ≡ Status.Usage ↔ (AreKnown (map string_bytes words.now) → ⊥) }
    ensures unknown { result ≡ Status.Usage → (source.new ≡ source.old) × (sink.new ≡ sink.old) }
    ensures answer { (result ≡ Status.Usage → ⊥) → (a : Asked) × Asks (map string_bytes words.now) a
        × IsAnswer S.shows K.shows a result source.old source.new sink.old sink.new }
    // Where no count of faults rose, all that can be done is done, or memory runs out.
    ensures complete { (a : Asked) → Asks (map string_bytes words.now) a → CanBeDone a (S.shows.left source.old)
        → (Rose S.shows.last_fault (S.shows.faults source.old) (S.shows.faults source.new) → ⊥) → (Rose K.shows.last_fault (K.shows.faults sink.old) (K.shows.faults sink.new) → ⊥) → IsDone a result }
    ensures note { IsNoted N.shows result notes.old notes.new }
{
    match main_alone(alloc, words, source, sink, notes) {
        Ok(status) => status,
        Err(asked) => noted(
            notes,
            answer_threads::<R, S, K, G>(rt, alloc, asked, source, sink, gate),
        ),
    }
}

/// `perf_main` over a source and a sink that never fail: there neither fault is answered, and what can be done is done,
/// or memory runs out.
pub fn calm_main<R: Threads + Wait + Sync, N: Sink, G: Gate + Sync>(
    rt: &R,
    alloc: Global,
    words: &[String],
    source: &mut CalmSource,
    sink: &mut CalmSink,
    notes: &mut N,
    gate: &G,
) -> Status
    ensures read { result ≡ Status.ReadFault → ⊥ }
    ensures write { result ≡ Status.WriteFault → ⊥ }
    ensures counts { N.shows.faults notes.old ≤ N.shows.faults notes.new }
    ensures usage { result ≡ Status.Usage ↔ (AreKnown (map string_bytes words.now) → ⊥) }
    ensures unknown { result ≡ Status.Usage → (source.new ≡ source.old) × (sink.new ≡ sink.old) }
    ensures answer { (result ≡ Status.Usage → ⊥) → (a : Asked) × Asks (map string_bytes words.now) a
        × IsAnswer ⟦<CalmSource as Source>⟧.shows ⟦<CalmSink as Sink>⟧.shows a result source.old source.new sink.old sink.new }
    ensures complete { (a : Asked) → Asks (map string_bytes words.now) a → CanBeDone a (Some source.old) → IsDone a result }
    ensures note { IsNoted N.shows result notes.old notes.new }
{
    perf_main::<R, CalmSource, CalmSink, N, G>(rt, alloc, words, source, sink, notes, gate)
}
