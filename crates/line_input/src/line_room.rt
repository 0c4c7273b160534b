//! Room for a line.

ghost use Rattle.std.specs.Prelude.{◌≡◌, [], ◌∷◌, ◌++◌, IfOk, take};

use perf_base::NoMemory;
use std::alloc::Global;
use std::marker::Model;

/// How many bytes a line may have. Its LF is none of them.
pub const MOST_LINE: usize = 65536;

/// A line in memory, of at most `MOST_LINE` bytes. Contracts see its bytes.
#[derive(Drop)]
pub struct LineRoom {
    bytes: Vec<u8>,
}

impl Model for LineRoom {
    ghost use Rattle.std.specs.Prelude.{ℕ, ◌≤◌, List, vec_len, vec_capacity};

    ghost Value = { List ℕ };

    ghost view = { λ r. r.bytes.items };

    ghost invariant = { λ r. (vec_len r.bytes ≤ 65536) × (65536 ≤ vec_capacity r.bytes) };
}

impl LineRoom {
    /// An empty line. It takes the memory of the longest one.
    pub fn new(alloc: Global) -> Result<LineRoom, NoMemory>
        ensures { IfOk result (λ line. line ≡ []) }
    {
        Ok(LineRoom {
            bytes: Vec::with_capacity(alloc, MOST_LINE)?,
        })
    }

    /// The bytes of the line.
    pub fn as_bytes(&self) -> &[u8]
        ensures { result.now ≡ self.now }
    {
        &self.bytes
    }

    /// Empties the line.
    pub(crate) fn clear(&mut self)
        ensures { self.new ≡ [] }
    {
        self.bytes.clear();
    }

    /// Adds a byte, where the line has room for it.
    pub(crate) fn push(&mut self, byte: u8)
        ensures { self.new ≡ take MOST_LINE (self.old ++ byte ∷ []) }
    {
        if self.bytes.len() < MOST_LINE {
            self.bytes.push_reserved(byte);
        }
    }
}
