//! What the types of a script's entries say of their numbers. A contract has a number's range once the
//! number is read, and these calls only read.

ghost use Rattle.std.specs.Prelude.{◌≡◌, ◌<◌, ◌^◌, length};
ghost use Rattle.perf_base.specs.Scripts.{IsStoredWork, IsStoredToolLine, IsStoredAct};

use crate::acts::Act;
use crate::attr::Attr;
use crate::lines::{CpuLine, ToolLine, Work};

fn read_number(n: &u64)
    ensures { n.now < 2 ^ 64 }
{
    let _n = *n;
}

fn read_hits(hits: &[u64; 16])
    ensures { length hits.now ≡ 16 }
{}

fn read_work(work: &Work)
    ensures wide { work.now.ip < 2 ^ 64 }
    ensures sixteen { length work.now.hits ≡ 16 }
{
    read_number(&work.ip);
    read_hits(&work.hits);
}

fn read_attr(attr: &Attr)
    ensures period { attr.now.period < 2 ^ 64 }
    ensures sample { attr.now.sample < 2 ^ 64 }
    ensures format { attr.now.format < 2 ^ 64 }
{
    read_number(&attr.period);
    read_number(&attr.sample);
    read_number(&attr.format);
}

/// A line of a processor is of its type.
pub fn read_cpu_line(line: &CpuLine)
    ensures { IsStoredWork line.now }
{
    if let CpuLine::Work(work) = line {
        read_work(work);
    }
}

/// A line of a tool is of its type.
pub fn read_tool_line(line: &ToolLine)
    ensures { IsStoredToolLine line.now }
{
    match line {
        ToolLine::Open { attr, .. } => read_attr(attr),
        ToolLine::Period { period, .. } => read_number(period),
        ToolLine::Read { size, .. } => {
            if let Some(n) = size {
                read_number(n);
            }
        }
        _ => {}
    }
}

/// An act is of its type.
pub fn read_act(act: &Act)
    ensures { IsStoredAct act.now }
{
    if let Act::Seen(_, place) = act {
        read_number(place);
    }
}
