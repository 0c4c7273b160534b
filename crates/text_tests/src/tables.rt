//! That a table is written where all calls succeed, and that no failed call is lost.

ghost use Rattle.std.specs.Prelude.{◌<◌, ◌^◌};

use crate::checks::{check, check_eq};
use crate::streams::sink_failing;
use perf_base::{EventNo, Name, Sums};
use stat_table::{StatRow, write_table};
use std::alloc::Global;
use std::process::Abort;
use std::test::Fail;

/// A row of the kind `a`.
fn row(slot: u16, count: u64, enabled: u64, running: u32, error: bool) -> StatRow
    ensures { result.sums.running < 2 ^ 44 }
{
    StatRow {
        event: EventNo(slot),
        name: Name::from_slice(b"a"),
        sums: Sums {
            count,
            enabled,
            running: u64::from(running),
        },
        error,
    }
}

/// What the table says.
static TABLE: &[u8] =
    b"stat 2\n255 a                                            9              0              0                       error       -\n  1 a                               9007199254740993              3              2           13510798882111489  66.66%\nend\n";

/// Checks whether a table of two rows can be written where the sink's call of this number fails, and what is written
/// where it can.
fn check_table(rt: &impl Abort, alloc: Global, call: u64, done: bool) -> Result<(), Fail> {
    let rows = [
        row(255, 9, 0, 0, true),
        row(1, 9007199254740993, 3, 2, false),
    ];
    let mut sink = sink_failing(alloc, 400, call, 400)?;
    check_eq(
        rt,
        (call, write_table(&rows, &mut sink).is_ok()),
        (call, done),
    );
    check(rt, !done || sink.bytes() == TABLE);
    Ok(())
}

#[test]
fn failed_calls_are_told(rt: HostRuntime) -> Result<(), Fail> {
    // Three calls for the first line, three for each row, and one for the last line.
    for call in 0..10u64 {
        check_table(&rt, rt.alloc(), call, false)?;
    }
    check_table(&rt, rt.alloc(), 10, true)
}
