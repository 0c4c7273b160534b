//! Where an event stands, and why it is not on.

ghost use Rattle.std.specs.Prelude.{◌≡◌};
ghost use Rattle.perf_base.specs.Standings as says;

use crate::lists::Tight;
use crate::numbers::{CpuNo, EventNo, TaskNo};

/// Where groups stand: what a processor counts, or what a task counts.
#[derive(Clone, Copy, PartialEq, Eq, Debug)]
pub enum Context {
    Processor(CpuNo),
    Task(TaskNo),
}

/// The rules by which a group is refused before its counters are looked at. Each names a group by the
/// slot of its leader's original.
#[derive(Clone, Copy, PartialEq, Eq, Debug)]
pub enum Rule {
    Exclusive(EventNo),
    ExclusiveSelf(EventNo),
    Earlier(EventNo),
}

/// Why a group is refused: by a rule, or by a set of events that no assignment to counters can serve.
#[derive(Clone, Copy, PartialEq, Eq, Debug)]
pub enum Cause {
    Rule(Rule),
    Hall(Tight),
}

/// An instance's own state, as PERF_EVENT_STATE_ in kernel/events/core.c. An error keeps its cause.
#[derive(Clone, Copy, PartialEq, Eq, Debug)]
pub enum Own {
    Off,
    Ready,
    Error(Cause),
}

/// Where a group stands on its processor.
#[derive(Clone, Copy, PartialEq, Eq, Debug)]
pub enum Standing {
    Out,
    On,
    Refused(Cause),
}

impl Standing {
    /// Whether the group is on.
    pub fn is_on(&self) -> bool
        ensures { result ≡ says.stands_on self.now }
    {
        matches!(self, Standing::On)
    }

    /// Whether the group was refused.
    pub fn is_refused(&self) -> bool
        ensures { result ≡ says.stands_refused self.now }
    {
        matches!(self, Standing::Refused(_))
    }
}

/// Why an event counts or does not.
#[derive(Clone, Copy, PartialEq, Eq, Debug)]
pub enum Why {
    Off,
    Failed(Cause),
    Away,
    On,
    Refused(Cause),
}
