//! The room that a book needs.

ghost use Rattle.std.specs.Prelude.{◌≡◌, ◌<◌, ◌^◌, sum};
ghost use Rattle.perf_book.specs.Book.{most_acts};

use perf_base::Script;

/// The sum of some numbers.
fn total(numbers: &[usize]) -> usize
    requires { sum numbers.now < 2 ^ 64 }
    ensures { result ≡ sum numbers.now }
{
    numbers.iter().sum()
}

/// For how many acts of a script a book makes room: those of the script's own order, a line each and 16 looks for each
/// line of a processor, and 16 looks at the end.
pub fn count_acts(script: &Script) -> usize
    ensures { result ≡ most_acts script.now }
{
    let cpu_lines = total(&script.lines_of_cpus());
    script.order().len() + 16 * cpu_lines + script.line_count() + 16
}
