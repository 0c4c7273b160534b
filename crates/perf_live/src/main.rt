//! Answers the lines of a session one by one, on standard input and output. It collects the words, makes the standard
//! streams, calls `live_main`, and ends with the answer's number.
#![tactic(auto)]

use live_session::{Status, live_main, put_note};
use perf_ask::{Status as NoWords, words_of};
use perf_io::{StdNotes, StdSink, StdSource};
use std::env;
use std::process::ExitCode;

fn main(rt: HostRuntime) -> ExitCode {
    let mut notes = StdNotes::new(rt.stderr());
    let status = match words_of(env::args(&rt), rt.alloc()) {
        Ok(words) => {
            let mut source = StdSource::new(rt.stdin());
            let mut sink = StdSink::new(rt.stdout());
            live_main(rt.alloc(), &words, &mut source, &mut sink, &mut notes)
        }
        Err(why) => without_words(&mut notes, why),
    };
    ExitCode::from(status.number())
}

/// Where the system passed no words: memory ran out, or one is not UTF-8.
fn without_words(notes: &mut StdNotes, why: NoWords) -> Status {
    let status = match why {
        NoWords::NoMemory => Status::NoMemory,
        _ => Status::Usage,
    };
    match put_note(notes, &status) {
        Ok(()) | Err(_) => status,
    }
}
