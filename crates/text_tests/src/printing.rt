//! That a script is printed where all calls succeed, and how far the text came where one fails.

ghost use Rattle.perf_base.specs.Scripts.{IsCovered};

use crate::checks::{check, check_eq};
use crate::streams::sink_failing;
use perf_base::Script;
use script_print::print_script;
use std::alloc::Global;
use std::process::Abort;
use std::test::Fail;

/// Checks whether a script can be printed where the sink's call of this number fails, and what is written then.
fn check_printed(
    rt: &impl Abort,
    alloc: Global,
    script: &Script,
    call: u64,
    done: bool,
    text: &[u8],
) -> Result<(), Fail>
    requires { IsCovered script.now }
{
    let mut sink = sink_failing(alloc, 7, call, 2000)?;
    check_eq(rt, print_script(script, &mut sink).is_ok(), done);
    check_eq(rt, sink.bytes(), text);
    Ok(())
}

/// A script of one processor.
fn small_script(alloc: Global) -> Result<Script, Fail> {
    let mut script = Script::new(alloc, 1);
    script.add_pmu(1, 1)?;
    Ok(script)
}

#[test]
fn failing_write(rt: HostRuntime) -> Result<(), Fail> {
    let script = small_script(rt.alloc())?;
    check(&rt, script.is_covered());
    let text = b"perf 1\nmachine cpus=1 counters=1\nend\n";
    check_printed(&rt, rt.alloc(), &script, 999, true, text)?;
    check_printed(&rt, rt.alloc(), &script, 5, false, b"perf 1\nmachine")
}
