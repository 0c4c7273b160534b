//! A sink over a sink, with a room in which bytes wait.

ghost use Rattle.std.specs.Prelude.{◌≡◌, ◌-◌, ◌<◌, ◌≤◌, [], ◌++◌, ℕ, Option, None, List, OnErr, OnOk, length, drop};
ghost use Rattle.perf_io.specs.Outside.{Flushes, Rose, no_flushes};
ghost use Rattle.perf_io.specs.Rooms.{with_room, Grew};

use crate::outside::{Failed, Sink};
use perf_base::ShortList;
use std::marker::{Brand, PhantomData};

/// How many bytes wait at most.
const ROOM: usize = 4096;

/// Which reference a buffered sink writes through, what the sink behind it held at the start, and how it had been
/// flushed.
pub(crate) trait Behind {
    // The reference's ghost name.
    ghost name: { ℕ };

    // What the sink held, where it told its bytes.
    ghost start: { Option (List ℕ) };

    // How it had been flushed.
    ghost flushed: { Flushes };
}

impl Behind for Brand {
    ghost name = { 0 };

    ghost start = { None };

    ghost flushed = { no_flushes };
}

/// A sink over a sink, with a room in which bytes wait. What waits there is lost where the buffered sink is let go.
#[derive(Drop)]
pub(crate) struct BufferedSink<'a, K: Sink, B: Behind> {
    sink: &'a mut K,
    room: ShortList<u8, ROOM>,
    // How often this sink was flushed.
    flushes: u64,
    behind: PhantomData<B>,
    ghost same_reference: { sink.ghost_name ≡ B.name },
    ghost fits: { length room ≤ 4096 },
    ghost grew: { Grew B.start (K.shows.held sink.now) },
    ghost unflushed: { flushes ≡ 0 → K.shows.flushed sink.now ≡ B.flushed },
}

/// Adds bytes for which the list has room.
fn push_all(text: &mut ShortList<u8, ROOM>, bytes: &[u8])
    requires { length bytes.now ≤ 4096 - length text.old }
    ensures { text.new ≡ text.old ++ bytes.now }
{
    for byte in bytes {
        text.push(*byte);
    }
}

/// The bytes of the list without the first `count`.
fn rest_of(room: &ShortList<u8, ROOM>, count: usize) -> ShortList<u8, ROOM>
    requires count { count ≤ length room.now }
    requires fits { length room.now ≤ 4096 }
    ensures { result ≡ drop count room.now }
{
    let mut rest = ShortList::new();
    push_all(&mut rest, &room.as_bytes()[count..]);
    rest
}

impl<'a, K: Sink, B: Behind> BufferedSink<'a, K, B> {
    /// An empty room before this sink.
    pub(crate) fn new(sink: &'a mut K) -> BufferedSink<'a, K, B>
        requires name { sink.ghost_name ≡ B.name }
        requires start { K.shows.held sink.old ≡ B.start }
        requires flushed { K.shows.flushed sink.old ≡ B.flushed }
        ensures same_reference { result.sink.ghost_name ≡ sink.entry.ghost_name }
        ensures sink { result.sink.now ≡ sink.old }
        ensures room { result.room ≡ [] }
        ensures flushes { result.flushes ≡ 0 }
    {
        BufferedSink {
            sink,
            room: ShortList::new(),
            flushes: 0,
            behind: PhantomData,
        }
    }

    /// The sink. What waits in the room is lost.
    pub(crate) fn into_inner(self) -> &'a mut K
        ensures same_reference { result.ghost_name ≡ self.entry.sink.ghost_name }
        ensures sink { result.now ≡ self.entry.sink.now }
    {
        self.sink
    }

    /// Sends the front of what waits by one call of the sink. A call that fails sends nothing.
    fn send(&mut self) -> Result<(), Failed>
        requires { 0 < length self.old.room }
        ensures same_reference { self.new.sink.ghost_name ≡ self.old.sink.ghost_name }
        ensures count { K.shows.faults self.old.sink.now ≤ K.shows.faults self.new.sink.now }
        ensures cause { OnErr result (Rose K.shows.last_fault (K.shows.faults self.old.sink.now) (K.shows.faults self.new.sink.now)) }
        ensures held { with_room B.start (K.shows.held self.new.sink.now) self.new.room ≡ with_room B.start (K.shows.held self.old.sink.now) self.old.room }
        ensures flushed { K.shows.flushed self.new.sink.now ≡ K.shows.flushed self.old.sink.now }
        ensures flushes { self.new.flushes ≡ self.old.flushes }
        ensures shorter { OnOk result (length self.new.room < length self.old.room) }
        ensures failed { OnErr result (self.new.room ≡ self.old.room) }
    {
        let count = self.sink.write(self.room.as_bytes())?;
        self.room = rest_of(&self.room, count);
        Ok(())
    }

    /// Sends a front of what waits where the room is full, by one call of the sink. A call that fails sends nothing.
    fn make_place(&mut self) -> Result<(), Failed>
        ensures same_reference { self.new.sink.ghost_name ≡ self.old.sink.ghost_name }
        ensures count { K.shows.faults self.old.sink.now ≤ K.shows.faults self.new.sink.now }
        ensures cause { OnErr result (Rose K.shows.last_fault (K.shows.faults self.old.sink.now) (K.shows.faults self.new.sink.now)) }
        ensures held { with_room B.start (K.shows.held self.new.sink.now) self.new.room ≡ with_room B.start (K.shows.held self.old.sink.now) self.old.room }
        ensures flushed { K.shows.flushed self.new.sink.now ≡ K.shows.flushed self.old.sink.now }
        ensures flushes { self.new.flushes ≡ self.old.flushes }
        ensures place { OnOk result (length self.new.room < 4096) }
    {
        if self.room.len() < ROOM {
            return Ok(());
        }
        self.send()
    }

    /// Sends all that waits. Where a call of the sink fails, the rest waits on.
    pub(crate) fn send_all(&mut self) -> Result<(), Failed>
        ensures same_reference { self.new.sink.ghost_name ≡ self.old.sink.ghost_name }
        ensures count { K.shows.faults self.old.sink.now ≤ K.shows.faults self.new.sink.now }
        ensures cause { OnErr result (Rose K.shows.last_fault (K.shows.faults self.old.sink.now) (K.shows.faults self.new.sink.now)) }
        ensures held { with_room B.start (K.shows.held self.new.sink.now) self.new.room ≡ with_room B.start (K.shows.held self.old.sink.now) self.old.room }
        ensures flushed { K.shows.flushed self.new.sink.now ≡ K.shows.flushed self.old.sink.now }
        ensures flushes { self.new.flushes ≡ self.old.flushes }
        ensures sent { OnOk result (self.new.room ≡ []) }
    {
        while !self.room.is_empty() {
            self.send()?;
        }
        Ok(())
    }
}

impl<K: Sink, B: Behind> Sink for BufferedSink<'_, K, B> {
    ghost shows = { record { held = λ b. with_room B.start (K.shows.held b.sink.now) b.room; flushed = λ b. record { calls = b.flushes; bytes = (K.shows.flushed b.sink.now).bytes }; faults = λ b. K.shows.faults b.sink.now; last_fault = K.shows.last_fault } };

    fn write(&mut self, piece: &[u8]) -> Result<usize, Failed> {
        self.make_place()?;
        let count = piece.len().min(ROOM - self.room.len());
        push_all(&mut self.room, &piece[..count]);
        Ok(count)
    }

    fn flush(&mut self) -> Result<(), Failed> {
        self.flushes = self.flushes.saturating_add(1);
        self.send_all()?;
        self.sink.flush()
    }
}
