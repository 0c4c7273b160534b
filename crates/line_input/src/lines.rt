//! The next line of a source.

ghost use Rattle.std.specs.Prelude.{◌≤◌, IfOk, OnErr};
ghost use Rattle.perf_io.specs.Outside.{Rose};
ghost use Rattle.line_input.specs.{Ahead.{ahead}, LineEnds.{HasLine, HasPart}};

use crate::input::Input;
use crate::line_room::{LineRoom, MOST_LINE};
use perf_io::{Failed, Source};

/// How a line ended.
#[derive(Clone, Copy, PartialEq, Eq, Debug)]
pub enum LineEnd {
    /// By an LF. The line stands in its room.
    Ended,
    /// By an LF, behind more than `MOST_LINE` bytes. Its text is not kept.
    Long,
    /// No LF stands behind its last byte.
    Cut,
    /// The source has no byte left.
    Nothing,
}

impl Input {
    /// Takes the next line from the source, with its LF. The room has the bytes before the LF where the answer is
    /// `Ended`, and nothing is said of it otherwise. Where a read fails, what was taken of the line before stays taken.
    pub fn next_line<S: Source>(
        &mut self,
        source: &mut S,
        line: &mut LineRoom,
    ) -> Result<LineEnd, Failed>
        ensures count { S.shows.faults source.old ≤ S.shows.faults source.new }
        ensures ok { IfOk result (HasLine (ahead S.shows self.old source.old) (ahead S.shows self.new source.new) line.new) }
        ensures cause { OnErr result (Rose S.shows.last_fault (S.shows.faults source.old) (S.shows.faults source.new)) }
        ensures failed { OnErr result (HasPart (ahead S.shows self.old source.old) (ahead S.shows self.new source.new)) }
    {
        line.clear();
        for count in 0..u64::MAX {
            match self.next_byte(source)? {
                None if count == 0 => return Ok(LineEnd::Nothing),
                None => return Ok(LineEnd::Cut),
                Some(b'\n') if count <= MOST_LINE as u64 => return Ok(LineEnd::Ended),
                Some(b'\n') => return Ok(LineEnd::Long),
                Some(byte) => line.push(byte),
            }
        }
        Ok(LineEnd::Cut)
    }
}
