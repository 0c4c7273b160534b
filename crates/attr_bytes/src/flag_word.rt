//! The word of the flag bits.

ghost use Rattle.std.specs.Prelude.{◌≡◌, ◌<◌, ◌^◌};
ghost use Rattle.std.specs.Int.{bit_at};
ghost use Rattle.attr_bytes.specs.Flags as says;

use perf_base::AttrFlags;

/// The bits of the flag word that are read: those at the same place in `AttrFlags`, exclude_hv,
/// sample_id_all and exclude_guest.
pub const READ_BITS: u64 = 0x14_007f;

// The six flags that stand at the same place in the flag word and in `AttrFlags`.
const SAME_PLACE: u64 = 0x3f;

// sample_id_all in the flag word, and how far below that place `AttrFlags` has it.
const SAMPLE_ID_ALL: u64 = 1 << 18;

const SAMPLE_ID_ALL_SHIFT: u32 = 12;

/// The flags that a flag word has.
pub fn flags_of_word(word: u64) -> AttrFlags
    ensures { result.0 ≡ says.flags_of_word word }
{
    let sample_id_all = AttrFlags::SAMPLE_ID_ALL.0;
    AttrFlags((word & SAME_PLACE) | ((word >> SAMPLE_ID_ALL_SHIFT) & sample_id_all))
}

/// The flag word that has these flags, and no bit without effect.
pub fn word_of_flags(flags: AttrFlags) -> u64
    requires { flags.0 < 2 ^ 7 }
    ensures flags { says.flags_of_word result ≡ flags.0 }
    ensures read_bits { says.HasOnlyReadBits result }
    ensures exclude_hv { bit_at result 6 ≡ 0 }
    ensures exclude_guest { bit_at result 20 ≡ 0 }
{
    (flags.0 & SAME_PLACE) | ((flags.0 << SAMPLE_ID_ALL_SHIFT) & SAMPLE_ID_ALL)
}
