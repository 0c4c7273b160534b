//! The words that the system passes to the program.

ghost use Rattle.std.specs.Prelude.{◌≡◌, Err, IfErr, IfOk, MatchResult, drop};
ghost use Rattle.std.specs.IoError.{error_kind};
ghost use Rattle.std.specs.Iterator.Runs.{WholeRun};
ghost use Rattle.std.specs.Vec.Iter.{into_iter_steps};
ghost use Rattle.std.specs.declared.io.ErrorKind.TheVariants.{OutOfMemory};
ghost use Rattle.perf_ask.specs.declared.status.Status.TheVariants as status;

use crate::status::Status;
use std::alloc::Global;
use std::{env, io};

/// Why there are no words: memory ran out, or one is not UTF-8.
fn without_words(error: &io::Error) -> Status
    ensures memory { error_kind error.now ≡ OutOfMemory → result ≡ status.NoMemory }
    ensures usage { (error_kind error.now ≡ OutOfMemory → ⊥) → result ≡ status.Usage }
{
    match error.kind() {
        io::ErrorKind::OutOfMemory => Status::NoMemory,
        _ => Status::Usage,
    }
}

/// The words behind the program's name, of the arguments that the system passes. Where it passes none, since memory ran
/// out or one is not UTF-8, the answer is NoMemory or Usage; NoMemory too where there is no memory for the words.
pub fn words_of(args: io::Result<env::Args>, alloc: Global) -> Result<Vec<String>, Status>
    ensures words { IfOk args (λ all. MatchResult result (λ words. WholeRun into_iter_steps all (λ run. words.items ≡ drop 1 run.items)) (λ answer. answer ≡ status.NoMemory)) }
    ensures memory { IfErr args (λ error. error_kind error ≡ OutOfMemory → result ≡ Err status.NoMemory) }
    ensures usage { IfErr args (λ error. (error_kind error ≡ OutOfMemory → ⊥) → result ≡ Err status.Usage) }
{
    match args {
        Err(error) => Err(without_words(&error)),
        Ok(args) => match args.skip(1).collect(alloc) {
            Err(_) => Err(Status::NoMemory),
            Ok(words) => Ok(words),
        },
    }
}
