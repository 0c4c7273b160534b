//! Reading an act.

ghost use Rattle.script_spec.specs.Acts.{act_text, IsActInRange};
ghost use Rattle.order_text.specs.Reading.{Reads};

use line_forms::spelled_act;
use perf_base::Act;

/// The act that a text says: of processor 0 to 7, of tool 0 to 3, or that the tail of ring 0 to 15 was seen at
/// a place of 64 bits. None exactly where no such act is written so.
pub fn read_act(text: &[u8]) -> Option<Act>
    ensures { Reads IsActInRange act_text text.now result }
{
    spelled_act(text)?.in_range()
}
