//! From an attribute to bytes.

ghost use Rattle.std.specs.Prelude.{◌≡◌, ℕ, List, ◌++◌, ◌<◌, ◌^◌, length};
ghost use Rattle.std.specs.Int.{bit_at};
ghost use Rattle.attr_bytes.specs.Layout.{size_in, flag_word_in, wakeup_events_in};
ghost use Rattle.attr_bytes.specs.Standing.{IsClass, StandsFor};

use crate::fields::{put_u32, put_u64};
use crate::flag_word::word_of_flags;
use crate::raw::RawAttr;

/// The 64 bytes that stand for an attribute, whatever bytes follow them. What has no effect is 0 in them:
/// wakeup_events, exclude_hv and exclude_guest.
pub fn attr_words(raw: &RawAttr) -> [u8; 64]
    requires class { IsClass raw.now.class }
    requires flags { raw.now.flags.0 < 2 ^ 7 }
    ensures stands { (more : List ℕ) → StandsFor (result ++ more) raw.now }
    ensures length { length result ≡ 64 }
    ensures size { size_in result ≡ 64 }
    ensures wakeup_events { wakeup_events_in result ≡ 0 }
    ensures exclude_hv { bit_at (flag_word_in result) 6 ≡ 0 }
    ensures exclude_guest { bit_at (flag_word_in result) 20 ≡ 0 }
{
    let mut words = [0u8; 64];
    put_u32(&mut words, 0, raw.class);
    put_u32(&mut words, 4, 64);
    put_u64(&mut words, 8, raw.config);
    put_u64(&mut words, 16, raw.period);
    put_u64(&mut words, 24, raw.sample);
    put_u64(&mut words, 32, raw.format);
    put_u64(&mut words, 40, word_of_flags(raw.flags));
    words
}
