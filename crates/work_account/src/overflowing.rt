//! How often instances are hit, and how often their periods are over by it.

use perf_base::Key;

/// An instance that is given occurrences one by one, and how many.
#[derive(Clone, Copy)]
pub struct Hit {
    pub key: Key,
    pub occurrences: u64,
}

/// How often the period of an instance was over.
#[derive(Clone, Copy)]
pub struct Overflow {
    pub key: Key,
    pub count: u64,
}
