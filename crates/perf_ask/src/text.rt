//! Reading a source to its end, or past the limit.

ghost use Rattle.std.specs.Prelude.{◌≡◌, ◌+◌, ◌<◌, ◌≤◌, [], ◌++◌, length, vec_capacity, vec_len, IfOk, IfErr, IfSome, OnOk, Err};
ghost use Rattle.perf_io.specs.Outside.{Takes, IsAtEnd, Rose};

use perf_io::Source;
use std::alloc::Global;

/// How many bytes a script's text may have.
pub const MOST_BYTES: usize = 4194304;

/// Why there is no text.
#[derive(Clone, Copy, PartialEq, Eq, Debug)]
pub enum TextStop {
    NoMemory,
    ReadFault,
    TooLong,
}

/// How many bytes are asked for at a time.
const PIECE_BYTES: usize = 16384;

/// Adds bytes to a text that has room for them.
fn push_all(text: &mut Vec<u8>, bytes: &[u8])
    requires { vec_len text.old + length bytes.now ≤ vec_capacity text.old }
    ensures items { text.new.items ≡ text.old.items ++ bytes.now }
    ensures len { vec_len text.new ≡ vec_len text.old + length bytes.now }
    ensures capacity { vec_capacity text.old ≤ vec_capacity text.new }
{
    let _ = text.extend_from_slice(bytes);
}

/// Reads all that a source has left into a text that is empty and has room for one byte more than a text may have. It
/// touches no more of the room than there are bytes. A source that has more than a text may have is read so far and no
/// further.
fn fill<S: Source>(source: &mut S, text: &mut Vec<u8>) -> Result<(), TextStop>
    requires empty { text.old.items ≡ [] }
    requires room { MOST_BYTES + 1 ≤ vec_capacity text.old }
    ensures count { S.shows.faults source.old ≤ S.shows.faults source.new }
    ensures ok { OnOk result ((length text.new.items ≤ MOST_BYTES) × Takes (S.shows.left source.old) (S.shows.left source.new) text.new.items × IsAtEnd (S.shows.left source.new)) }
    ensures no_memory { result ≡ Err TextStop.NoMemory → ⊥ }
    ensures fault { result ≡ Err TextStop.ReadFault → Rose S.shows.last_fault (S.shows.faults source.old) (S.shows.faults source.new) }
    ensures long { result ≡ Err TextStop.TooLong → IfSome (S.shows.left source.old) (λ bytes. MOST_BYTES < length bytes) }
{
    let mut piece = [0; PIECE_BYTES];
    for _ in 0..=MOST_BYTES {
        let room = PIECE_BYTES.min(MOST_BYTES + 1 - text.len());
        match source.read(&mut piece[..room]) {
            Err(_) => return Err(TextStop::ReadFault),
            Ok(0) => return Ok(()),
            Ok(n) => {
                push_all(text, &piece[..n]);
                if text.len() > MOST_BYTES {
                    return Err(TextStop::TooLong);
                }
            }
        }
    }
    Err(TextStop::TooLong)
}

/// Room for a text and one byte more.
fn room(alloc: Global) -> Result<Vec<u8>, TextStop>
    ensures empty { IfOk result (λ room. room.items ≡ []) }
    ensures room { IfOk result (λ room. MOST_BYTES + 1 ≤ vec_capacity room) }
    ensures err { IfErr result (λ stop. stop ≡ TextStop.NoMemory) }
{
    match Vec::with_capacity(alloc, MOST_BYTES + 1) {
        Ok(room) => Ok(room),
        Err(_) => Err(TextStop::NoMemory),
    }
}

/// All that a source has left. Its memory is taken before the first read.
pub fn read_text<S: Source>(alloc: Global, source: &mut S) -> Result<Vec<u8>, TextStop>
    ensures count { S.shows.faults source.old ≤ S.shows.faults source.new }
    ensures ok { IfOk result (λ text. (length text.items ≤ MOST_BYTES) × Takes (S.shows.left source.old) (S.shows.left source.new) text.items × IsAtEnd (S.shows.left source.new)) }
    ensures no_memory { result ≡ Err TextStop.NoMemory → source.new ≡ source.old }
    ensures fault { result ≡ Err TextStop.ReadFault → Rose S.shows.last_fault (S.shows.faults source.old) (S.shows.faults source.new) }
    ensures long { result ≡ Err TextStop.TooLong → IfSome (S.shows.left source.old) (λ bytes. MOST_BYTES < length bytes) }
{
    let mut text = room(alloc)?;
    fill(source, &mut text)?;
    Ok(text)
}
