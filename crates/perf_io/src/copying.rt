//! What the sources and sinks in memory share.

ghost use Rattle.std.specs.Prelude.{◌≡◌, ◌++◌, ◌↔◌, IsTrue, Contains, length, take, drop, min};

/// Copies bytes into the front of the buffer, as many as fit, and answers how many.
pub(crate) fn copy_front(bytes: &[u8], buf: &mut [u8]) -> usize
    ensures count { result ≡ min (length buf.old) (length bytes.now) }
    ensures front { take result buf.new ≡ take result bytes.now }
    ensures copied { buf.new ≡ take result bytes.now ++ drop result buf.old }
{
    let n = buf.len().min(bytes.len());
    buf[..n].copy_from_slice(&bytes[..n]);
    n
}

/// Whether the call of this number is one that fails.
pub(crate) fn is_listed(fail: &[u64], call: u64) -> bool
    ensures { IsTrue result ↔ Contains fail.now call }
{
    fail.contains(&call)
}
