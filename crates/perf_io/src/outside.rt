//! The traits of a source and of a sink.

ghost use Rattle.std.specs.Prelude.{◌≡◌, ◌<◌, ◌≤◌, length, take, IfOk, IfSome, OnErr, OnOk};
ghost use Rattle.perf_io.specs.Counts.{count_after};
ghost use Rattle.perf_io.specs.Outside.{Takes, Adds, IsAtEnd, Rose, SinkShows, SourceShows};

/// A read, a write or a flush has failed, and the object's count of faults shows it.
#[derive(Clone, Copy, PartialEq, Eq, Debug)]
pub struct Failed;

/// Bytes to read.
pub trait Source {
    // The bytes left and the faults.
    ghost shows: { SourceShows Self };

    /// Reads into the front of the buffer, and answers how many bytes. With a buffer that is not empty, 0
    /// means the end. A read that fails takes nothing.
    fn read(&mut self, buf: &mut [u8]) -> Result<usize, Failed>
        ensures count { shows.faults self.old ≤ shows.faults self.new }
        ensures cause { OnErr result (Rose shows.last_fault (shows.faults self.old) (shows.faults self.new)) }
        ensures within { IfOk result (λ n. n ≤ length buf.old) }
        ensures taken { IfOk result (λ n. Takes (shows.left self.old) (shows.left self.new) (take n buf.new)) }
        ensures end { IfOk result (λ n. n ≡ 0 → 0 < length buf.old → IsAtEnd (shows.left self.new)) }
        ensures failed { OnErr result (shows.left self.new ≡ shows.left self.old) };
}

/// A place for bytes.
pub trait Sink {
    // The bytes held, the flushes and the faults.
    ghost shows: { SinkShows Self };

    /// Writes the front of the piece, and answers how many bytes, at least 1 of a piece that is not empty.
    /// A write that fails adds nothing.
    fn write(&mut self, piece: &[u8]) -> Result<usize, Failed>
        ensures count { shows.faults self.old ≤ shows.faults self.new }
        ensures cause { OnErr result (Rose shows.last_fault (shows.faults self.old) (shows.faults self.new)) }
        ensures within { IfOk result (λ n. n ≤ length piece.now) }
        ensures some { IfOk result (λ n. 0 < length piece.now → 0 < n) }
        ensures added { IfOk result (λ n. Adds (shows.held self.old) (shows.held self.new) (take n piece.now)) }
        ensures failed { OnErr result (shows.held self.new ≡ shows.held self.old) }
        ensures flushed { shows.flushed self.new ≡ shows.flushed self.old };

    /// Sends on what was written. It changes no byte.
    fn flush(&mut self) -> Result<(), Failed>
        ensures count { shows.faults self.old ≤ shows.faults self.new }
        ensures cause { OnErr result (Rose shows.last_fault (shows.faults self.old) (shows.faults self.new)) }
        ensures held { shows.held self.new ≡ shows.held self.old }
        ensures once { (shows.flushed self.new).calls ≡ count_after (shows.flushed self.old).calls 1 }
        ensures ok { OnOk result (IfSome (shows.held self.new) (λ bytes. (shows.flushed self.new).bytes ≡ length bytes)) }
        ensures failed { OnErr result ((shows.flushed self.new).bytes ≡ (shows.flushed self.old).bytes) };
}
