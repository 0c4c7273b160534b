//! Writing the flags of an attribute.

ghost use Rattle.std.specs.Prelude.{◌≡◌, ◌<◌, ◌↔◌, IsTrue};
ghost use Rattle.std.specs.Int.{bit_at};
ghost use Rattle.script_spec.specs.Forms.{flag_name, flags_text};
ghost use Rattle.perf_io.specs.Wrote.{Wrote};

use crate::pieces::put_two;
use perf_base::AttrFlags;
use perf_io::{Failed, Sink};

/// The word of a flag by its number.
fn name_of(flag: u8) -> &'static [u8]
    requires { flag < 7 }
    ensures { result.now ≡ flag_name flag }
{
    AttrFlags::table()[usize::from(flag)].name.as_bytes()
}

fn is_set(flags: AttrFlags, flag: u8) -> bool
    requires { flag < 7 }
    ensures { IsTrue result ↔ (bit_at flags.0 flag ≡ 1) }
{
    (flags.0 >> flag) & 1 == 1
}

/// Writes the names of the flags that are set, in their order, with a comma between each two.
pub fn put_flags<K: Sink>(sink: &mut K, flags: AttrFlags) -> Result<(), Failed>
    ensures wrote { Wrote K.shows sink.old sink.new result (flags_text flags.0) }
    ensures flushed { K.shows.flushed sink.new ≡ K.shows.flushed sink.old }
{
    let mut comma: &[u8] = b"";
    for flag in 0..7 {
        if is_set(flags, flag) {
            put_two(sink, comma, name_of(flag))?;
            comma = b",";
        }
    }
    Ok(())
}
