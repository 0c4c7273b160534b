//! The head of a source: its text up to the first line that is `end`.

ghost use Rattle.std.specs.Prelude.{◌≡◌, ◌<◌, ◌≤◌, ◌↔◌, [], Err, IfErr, IfOk, IfSome, IsTrue, OnOk, length, take, vec_capacity};
ghost use Rattle.perf_io.specs.Outside.{Rose};
ghost use Rattle.line_input.specs.{Ahead.{ahead}, Heads.{HasEndLine, HasNoEndLine, HasHead}};

use crate::input::Input;
use perf_io::Source;
use std::alloc::Global;

/// How many bytes a head may have.
pub const MOST_HEAD: usize = 4194304;

/// Why there is no head.
#[derive(Clone, Copy, PartialEq, Eq, Debug)]
pub enum HeadStop {
    /// Memory ran out before the first read.
    NoMemory,
    /// A read failed.
    ReadFault,
    /// No line among the first `MOST_HEAD` bytes is `end`, and more bytes stand behind them.
    TooLong,
}

/// Whether the last line of the text is `end` and an LF.
fn has_end_line(text: &[u8]) -> bool
    ensures { IsTrue result ↔ HasEndLine text.now }
{
    text.ends_with(b"\nend\n") || text == b"end\n".as_slice()
}

/// Room for the longest head.
fn room(alloc: Global) -> Result<Vec<u8>, HeadStop>
    ensures empty { IfOk result (λ room. room.items ≡ []) }
    ensures room { IfOk result (λ room. MOST_HEAD ≤ vec_capacity room) }
    ensures err { IfErr result (λ stop. stop ≡ HeadStop.NoMemory) }
{
    match Vec::with_capacity(alloc, MOST_HEAD) {
        Ok(room) => Ok(room),
        Err(_) => Err(HeadStop::NoMemory),
    }
}

impl Input {
    /// Reads the head into a text that is empty and has room for it.
    fn fill_head<S: Source>(&mut self, source: &mut S, text: &mut Vec<u8>) -> Result<(), HeadStop>
        requires empty { text.old.items ≡ [] }
        requires room { MOST_HEAD ≤ vec_capacity text.old }
        ensures count { S.shows.faults source.old ≤ S.shows.faults source.new }
        ensures ok { OnOk result (HasHead (ahead S.shows self.old source.old) (ahead S.shows self.new source.new) text.new.items) }
        ensures no_memory { result ≡ Err HeadStop.NoMemory → ⊥ }
        ensures fault { result ≡ Err HeadStop.ReadFault → Rose S.shows.last_fault (S.shows.faults source.old) (S.shows.faults source.new) }
        ensures long { result ≡ Err HeadStop.TooLong → IfSome (ahead S.shows self.old source.old) (λ bytes. (MOST_HEAD < length bytes) × HasNoEndLine (take MOST_HEAD bytes)) }
    {
        for _ in 0..MOST_HEAD {
            match self.next_byte(source) {
                Err(_) => return Err(HeadStop::ReadFault),
                Ok(None) => return Ok(()),
                Ok(Some(byte)) => {
                    text.push_reserved(byte);
                    if byte == b'\n' && has_end_line(text) {
                        return Ok(());
                    }
                }
            }
        }
        match self.next_byte(source) {
            Err(_) => Err(HeadStop::ReadFault),
            Ok(None) => Ok(()),
            Ok(Some(_)) => Err(HeadStop::TooLong),
        }
    }

    /// Takes the head from the source: all bytes up to the first line that is `end`, with that line and its LF, or all
    /// that the source has where no line is. The head has at most `MOST_HEAD` bytes, and their memory is taken before
    /// the first read. What stands behind the head is still to be read.
    pub fn head_text<S: Source>(
        &mut self,
        alloc: Global,
        source: &mut S,
    ) -> Result<Vec<u8>, HeadStop>
        ensures count { S.shows.faults source.old ≤ S.shows.faults source.new }
        ensures ok { IfOk result (λ text. HasHead (ahead S.shows self.old source.old) (ahead S.shows self.new source.new) text.items) }
        ensures no_memory { result ≡ Err HeadStop.NoMemory → (source.new ≡ source.old) × (self.new ≡ self.old) }
        ensures fault { result ≡ Err HeadStop.ReadFault → Rose S.shows.last_fault (S.shows.faults source.old) (S.shows.faults source.new) }
        ensures long { result ≡ Err HeadStop.TooLong → IfSome (ahead S.shows self.old source.old) (λ bytes. (MOST_HEAD < length bytes) × HasNoEndLine (take MOST_HEAD bytes)) }
    {
        let mut text = room(alloc)?;
        self.fill_head(source, &mut text)?;
        Ok(text)
    }
}
