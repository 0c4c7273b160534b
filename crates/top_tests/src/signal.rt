//! What one thread announces and others wait for.

use std::sync::atomic::{AtomicU64, Ordering};

// How often a thread looks for it. A limit that must not be reached.
const MOST: u64 = 100_000_000;

// Whether it has been announced, how often it was waited for and came, and how often it did not come.
#[derive(Drop)]
pub(crate) struct Signal {
    announced: AtomicU64,
    met: AtomicU64,
    missed: AtomicU64,
}

impl Signal {
    pub(crate) fn new() -> Signal {
        Signal {
            announced: AtomicU64::new(0),
            met: AtomicU64::new(0),
            missed: AtomicU64::new(0),
        }
    }

    pub(crate) fn announce(&self) {
        self.announced.store(1, Ordering::SeqCst);
    }

    // Waits for it, and says whether it came.
    pub(crate) fn wait(&self) -> bool {
        for _ in 0..MOST {
            if self.announced.load(Ordering::SeqCst) == 1 {
                self.met.fetch_add(1, Ordering::SeqCst);
                return true;
            }
        }
        self.missed.fetch_add(1, Ordering::SeqCst);
        false
    }

    // The same, for a gate: whether it came is asked when the run is over.
    pub(crate) fn hold(&self) {
        self.wait();
    }

    // Whether it was waited for just so often, and came each time.
    pub(crate) fn is_met(&self, times: u64) -> bool {
        self.met.load(Ordering::SeqCst) == times && self.missed.load(Ordering::SeqCst) == 0
    }
}
