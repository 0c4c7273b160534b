//! The first word of a record, struct perf_event_header.

ghost use Rattle.std.specs.Prelude.{◌≡◌};
ghost use Rattle.ring_spec.specs.Whole.{size_field};
ghost use Rattle.sample_records.specs.Headers.{type_field, misc_field, word_of};

use byteorder::{ByteOrder, LittleEndian};

/// PERF_RECORD_LOST.
pub const LOST: u32 = 2;

/// PERF_RECORD_SAMPLE.
pub const SAMPLE: u32 = 9;

/// What the first word of a record says; `size` is in bytes.
#[derive(Clone, Copy, PartialEq, Eq, Debug)]
pub struct Header {
    pub kind: u32,
    pub misc: u16,
    pub size: u16,
}

/// The word of a header, whose size is in bytes.
pub fn header_word(kind: u32, misc: u16, size: u16) -> u64
    ensures { result ≡ word_of kind misc size }
{
    let mut bytes = [0; 8];
    LittleEndian::write_u32(&mut bytes, kind);
    LittleEndian::write_u16(&mut bytes[4..], misc);
    LittleEndian::write_u16(&mut bytes[6..], size);
    LittleEndian::read_u64(&bytes)
}

/// The header that a word has.
pub fn header_of(word: u64) -> Header
    ensures kind { result.kind ≡ type_field word }
    ensures misc { result.misc ≡ misc_field word }
    ensures size { result.size ≡ size_field word }
{
    let mut bytes = [0; 8];
    LittleEndian::write_u64(&mut bytes, word);
    Header {
        kind: LittleEndian::read_u32(&bytes),
        misc: LittleEndian::read_u16(&bytes[4..]),
        size: LittleEndian::read_u16(&bytes[6..]),
    }
}
