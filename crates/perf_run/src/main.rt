//! Replays, runs or tabulates a script of tasks, processor work and counter commands, makes one, or says what an
//! attribute asks for. It collects the words, makes the standard streams, calls `perf_main`, and ends with the answer's
//! number.
#![tactic(auto)]

use perf_ask::{put_note, words_of};
use perf_io::{StdNotes, StdSink, StdSource};
use perf_top::{OpenGate, perf_main};
use std::env;
use std::process::ExitCode;

fn main(rt: HostRuntime) -> ExitCode {
    let mut notes = StdNotes::new(rt.stderr());
    let status = match words_of(env::args(&rt), rt.alloc()) {
        Ok(words) => {
            let mut source = StdSource::new(rt.stdin());
            let mut sink = StdSink::new(rt.stdout());
            perf_main(
                &rt,
                rt.alloc(),
                &words,
                &mut source,
                &mut sink,
                &mut notes,
                &OpenGate,
            )
        }
        Err(status) => match put_note(&mut notes, &status) {
            Ok(()) | Err(_) => status,
        },
    };
    ExitCode::from(status.number())
}
