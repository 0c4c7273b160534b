//! Where a worker may be held up.

use perf_base::Actor;

/// Passed by a worker before each line of a processor or tool, before each try of a reader, and before each look of a
/// watcher, without the lock. The number is the line's, the try's or the look's, from 0. It promises nothing.
pub trait Gate {
    fn before(&self, actor: Actor, line: u32);
}

/// The gate that holds nobody up.
pub struct OpenGate;

impl Gate for OpenGate {
    fn before(&self, _actor: Actor, _line: u32) {}
}
