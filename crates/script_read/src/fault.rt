//! Why a text is no script.

ghost use Rattle.std.specs.Prelude.{◌≡◌};
ghost use Rattle.script_read.specs.declared.fault.LineFault.TheVariants as fault;

use perf_base::{NoMemory, SReason};

/// Why a text gives no script: a line is at fault, for a reason, or memory ran out. Lines are numbered from 1;
/// line 0 is that of an empty text.
#[derive(Clone, Copy, PartialEq, Eq, Debug)]
pub enum ScriptFault {
    Bad { line: u32, reason: SReason },
    NoMemory,
}

/// Why a line is not taken.
#[derive(Clone, Copy, PartialEq, Eq, Debug)]
pub enum LineFault {
    Bad(SReason),
    NoMemory,
}

impl From<SReason> for LineFault {
    ghost from_gives = { λ r e. e ≡ fault.Bad r };

    fn from(reason: SReason) -> LineFault {
        LineFault::Bad(reason)
    }
}

impl From<NoMemory> for LineFault {
    ghost from_gives = { λ _ e. e ≡ fault.NoMemory };

    fn from(_error: NoMemory) -> LineFault {
        LineFault::NoMemory
    }
}
