//! Runs the top call on worked cases, and says where its answer is not what a case expects. What a text stands for is
//! then printed, and the printed text has to end as the text did. A case may also be words without a text. The cases
//! are those of the list `cases` in the folder that the first word names, or else in the folder where it runs; each
//! text, and the words of each other case, are a file beside the list.
#![tactic(auto)]

use case_verdicts::{Case, Expected, Tally, Verdict, parse_case, printed_too, run_text, run_words};
use perf_base::NoMemory;
use std::process::ExitCode;
use std::sync::Wait;
use std::thread::Threads;
use std::{env, fs, io};

/// The folder of the list.
fn list_folder(rt: &HostRuntime) -> io::Result<String> {
    match env::args(rt)?.nth(1) {
        Some(folder) => Ok(folder),
        None => Ok(String::from_str(rt.alloc(), ".")?),
    }
}

/// The bytes of the file of a case with this ending.
fn read_part(rt: &HostRuntime, folder: &str, name: &str, ending: &str) -> io::Result<Vec<u8>> {
    fs::read(rt, format!(in rt.alloc(); "{folder}/{name}.{ending}")?)
}

/// What a case expects on standard output, where it says.
fn read_report(rt: &HostRuntime, folder: &str, case: &Case) -> io::Result<Vec<u8>> {
    match case.expected {
        Expected::Done | Expected::Words => read_part(rt, folder, case.name.as_str(), "report"),
        Expected::Table => read_part(rt, folder, case.name.as_str(), "table"),
        _ => Ok(Vec::new(rt.alloc())),
    }
}

/// The words of a case, which stand in a file, one a line.
fn read_words(rt: &HostRuntime, folder: &str, case: &Case) -> io::Result<Vec<String>> {
    let name = case.name.as_str();
    let text = fs::read_to_string(rt, format!(in rt.alloc(); "{folder}/{name}.words")?)?;
    let mut words = Vec::new(rt.alloc());
    for line in text.as_str().lines() {
        words.push(String::from_str(rt.alloc(), line)?)?;
    }
    Ok(words)
}

/// Runs the words or the text of a case.
fn run_given<R: Threads + Wait + Sync>(
    rt: &HostRuntime,
    threads: &R,
    folder: &str,
    case: &Case,
    report: &[u8],
) -> io::Result<Result<Verdict, NoMemory>> {
    match case.expected {
        Expected::Words | Expected::Usage => {
            let words = read_words(rt, folder, case)?;
            let nothing = Vec::new(rt.alloc());
            Ok(run_words(threads, rt.alloc(), &case.expected, report, &words, nothing))
        }
        Expected::Table => {
            let words = vec![in rt.alloc(); String::from_str(rt.alloc(), "stat")?]?;
            let text = read_part(rt, folder, case.name.as_str(), "script")?;
            Ok(run_words(threads, rt.alloc(), &case.expected, report, &words, text))
        }
        _ => {
            let text = read_part(rt, folder, case.name.as_str(), "script")?;
            Ok(run_text(rt.alloc(), &case.expected, report, text))
        }
    }
}

/// Runs a case, and says how it went.
fn run_case<R: Threads + Wait + Sync>(
    rt: &HostRuntime,
    threads: &R,
    folder: &str,
    case: &Case,
) -> io::Result<Verdict> {
    let report = read_report(rt, folder, case)?;
    match run_given(rt, threads, folder, case, &report)? {
        Err(NoMemory) => Err(io::ErrorKind::OutOfMemory.into()),
        Ok(verdict) => Ok(verdict),
    }
}

/// How a case went; one that could not be run differs.
fn verdict_of<R: Threads + Wait + Sync>(
    rt: &HostRuntime,
    threads: &R,
    folder: &str,
    case: &Case,
) -> io::Result<Verdict> {
    match run_case(rt, threads, folder, case) {
        Ok(verdict) => Ok(verdict),
        Err(error) => Ok(Verdict::Differs(format!(in rt.alloc(); "not run: {error}")?)),
    }
}

/// Prints the line of a case.
fn print_verdict(rt: &HostRuntime, case: &Case, verdict: &Verdict) -> io::Result<()> {
    let name = case.name.as_str();
    match verdict {
        Verdict::AsExpected => println!(rt;
            "{name}: {}, as expected{}",
            case.expected.status(),
            printed_too(&case.expected)
        ),
        Verdict::Differs(how) => println!(rt; "{name}: {how}"),
    }
}

/// Runs the case of a line of the list, if it is one.
fn run_line<R: Threads + Wait + Sync>(
    rt: &HostRuntime,
    threads: &R,
    folder: &str,
    line: &str,
    tally: Tally,
) -> io::Result<Tally> {
    match parse_case(rt.alloc(), line)? {
        None => Ok(tally),
        Some(case) => {
            let verdict = verdict_of(rt, threads, folder, &case)?;
            print_verdict(rt, &case, &verdict)?;
            Ok(tally.with(&verdict))
        }
    }
}

/// Runs the cases of the list.
fn run_list<R: Threads + Wait + Sync>(
    rt: &HostRuntime,
    threads: &R,
    folder: &str,
) -> io::Result<Tally> {
    let list = fs::read_to_string(rt, format!(in rt.alloc(); "{folder}/cases")?)?;
    let mut tally = Tally::default();
    for line in list.as_str().lines() {
        tally = run_line(rt, threads, folder, line, tally)?;
    }
    println!(rt; "{} cases, {} failures", tally.cases, tally.failures)?;
    Ok(tally)
}

fn main(rt: HostRuntime) -> io::Result<ExitCode> {
    let folder = list_folder(&rt)?;
    let tally = run_list(&rt, &rt, folder.as_str())?;
    if tally.failures == 0 {
        Ok(ExitCode::SUCCESS)
    } else {
        Ok(ExitCode::FAILURE)
    }
}
