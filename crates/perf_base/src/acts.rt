//! Who acts, and the acts of an order.

use crate::numbers::{CpuNo, RingNo, ToolNo};

/// Who takes part in a run: a processor or a tool, which do lines, the reader of a ring, which tries to take records,
/// or the watcher of a page, which looks at what an event has counted.
#[derive(Clone, Copy, PartialEq, Eq, Debug)]
pub enum Actor {
    Processor(CpuNo),
    Tool(ToolNo),
    Reader(RingNo),
    Watcher,
}

/// One entry of an order: the next line of a processor or of a tool, or that a ring's tail was seen at
/// a place, in bytes.
#[derive(Clone, Copy, PartialEq, Eq, Debug)]
pub enum Act {
    Processor(CpuNo),
    Tool(ToolNo),
    Seen(RingNo, u64),
}
