//! What happens on a processor while its groups stay as they are.

ghost use Rattle.std.specs.Prelude.{◌≡◌};
ghost use Rattle.perf_base.specs.Scripts.{IsKind};
ghost use Rattle.stage_spec.specs.Shares as shares;
ghost use Rattle.world_spec.specs.Shares as soft;
ghost use Rattle.work_account.specs.Visits as visits;

use perf_base::{Attr, Kind, Mode, Work};
use stage_spec::Instance;

/// A stretch of work, or one occurrence of a software kind, in kernel mode.
#[derive(Clone, Copy)]
pub enum Happening {
    Work(Work),
    Soft(Kind),
}

/// Whether an event leaves out a mode.
fn excludes(mode: Mode, attr: &Attr) -> bool
    ensures { result ≡ shares.excludes mode attr.now }
{
    match mode {
        Mode::User => attr.flags.excludes_user(),
        Mode::Kernel => attr.flags.excludes_kernel(),
    }
}

/// What an event that is on counts of a stretch of work: a clock its length, and a hardware kind its occurrences, but
/// for those in a mode that the event leaves out.
fn counted_by(work: &Work, attr: &Attr) -> u64
    requires kind { IsKind 16 attr.now.kind }
    ensures { result ≡ shares.counted_by work.now attr.now attr.now.kind }
{
    match attr.kind {
        Kind::Hard(_) if excludes(work.mode, attr) => 0,
        Kind::Hard(number) => work.hits[usize::from(number)],
        Kind::TaskClock => work.length,
        Kind::ContextSwitches | Kind::CpuMigrations | Kind::Dummy => 0,
    }
}

/// What an event that is on counts of one occurrence of a software kind: one where it is of that kind and does not
/// leave out the kernel.
fn soft_hits(occurring: Kind, instance: &Instance) -> u64
    ensures { result ≡ soft.soft_hits occurring instance.now }
{
    match (occurring, instance.attr.kind) {
        (Kind::ContextSwitches, Kind::ContextSwitches)
        | (Kind::CpuMigrations, Kind::CpuMigrations) => {
            u64::from(!excludes(Mode::Kernel, &instance.attr))
        }
        _ => 0,
    }
}

impl Happening {
    /// Whether it is given one by one to an instance that is on: work to one that samples, and an occurrence to one
    /// that counts it.
    pub fn hits(&self, instance: &Instance) -> bool
        ensures { result ≡ visits.is_hit_by self.now instance.now }
    {
        match self {
            Happening::Work(_) => instance.attr.period != 0,
            Happening::Soft(occurring) => soft_hits(*occurring, instance) != 0,
        }
    }

    /// How often it gives what an event that is on counts.
    pub fn occurrences(&self, instance: &Instance) -> u64
        requires kind { IsKind 16 instance.now.attr.kind }
        ensures { result ≡ visits.occurs self.now instance.now }
    {
        match self {
            Happening::Work(work) => counted_by(work, &instance.attr),
            Happening::Soft(occurring) => soft_hits(*occurring, instance),
        }
    }
}
