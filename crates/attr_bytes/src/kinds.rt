//! What an attribute counts.

ghost use Rattle.std.specs.Prelude.{◌≡◌};
ghost use Rattle.attr_bytes.specs.Kinds.{kind_numbered};

use crate::raw::RawAttr;
use perf_base::Kind;

/// The kind that the attribute names, where there are `kinds` hardware kinds. None exactly where it names none.
pub fn kind_of(raw: &RawAttr, kinds: u8) -> Option<Kind>
    ensures { result ≡ kind_numbered kinds raw.now.class raw.now.config }
{
    match (raw.class, raw.config) {
        (0 | 4, number) if number < u64::from(kinds) => Some(Kind::Hard(number as u8)),
        (1, 1) => Some(Kind::TaskClock),
        (1, 3) => Some(Kind::ContextSwitches),
        (1, 4) => Some(Kind::CpuMigrations),
        (1, 9) => Some(Kind::Dummy),
        _ => None,
    }
}
