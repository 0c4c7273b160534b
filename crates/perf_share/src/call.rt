//! What a thread calls.

use perf_base::{CpuLine, CpuNo, ToolLine};

/// A line that is given to the machine: of a tool, or of a processor.
#[derive(Clone, Copy, PartialEq, Eq, Debug)]
pub enum Call {
    Tool(ToolLine),
    Cpu(CpuNo, CpuLine),
}
