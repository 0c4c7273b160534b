//! Texts that are acts and texts that are not, and that an act is written as it is read.

use crate::checks::{check, check_eq};
use crate::streams::sink_failing;
use order_text::{read_act, write_act};
use perf_base::{Act, CpuNo, RingNo, ToolNo};
use std::alloc::Global;
use std::process::Abort;
use std::test::Fail;

/// Texts, and the acts that they are.
static ACTS: [(&[u8], Option<Act>); 14] = [
    (b"p0", Some(Act::Processor(CpuNo(0)))),
    (b"p7", Some(Act::Processor(CpuNo(7)))),
    (b"p8", None),
    (b"p08", None),
    (b"t3", Some(Act::Tool(ToolNo(3)))),
    (b"t4", None),
    (b"s15=0", Some(Act::Seen(RingNo(15), 0))),
    (b"s16=0", None),
    (
        b"s0=18446744073709551615",
        Some(Act::Seen(RingNo(0), 18446744073709551615)),
    ),
    (b"s0=18446744073709551616", None),
    (b"s0=", None),
    (b"x0", None),
    (b"", None),
    (b"p", None),
];

/// Checks that a text is read as this act, and the act is written as the text; or that it is no act.
fn check_act(rt: &impl Abort, alloc: Global, text: &[u8], act: Option<Act>) -> Result<(), Fail> {
    assert_eq!(rt; read_act(text), act, "{text:?}");
    if let Some(act) = act {
        let mut sink = sink_failing(alloc, 3, 99, 40)?;
        check(rt, write_act(&act, &mut sink).is_ok());
        check_eq(rt, sink.bytes(), text);
    }
    Ok(())
}

#[test]
fn texts_are_acts_or_not(rt: HostRuntime) -> Result<(), Fail> {
    for (text, act) in &ACTS {
        check_act(&rt, rt.alloc(), text, *act)?;
    }
    Ok(())
}
