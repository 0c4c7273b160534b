//! The machine as an object of one thread.

ghost use Rattle.std.specs.Prelude.{◌≡◌, [], IfOk};
ghost use Rattle.perf_base.specs.Scripts.{IsCovered};
ghost use Rattle.perf_share.specs.Calls.{AreLegal, Fits, none_legal};
ghost use Rattle.perf_share.specs.Served.{IsAfter};

use crate::call::Call;
use machine::Machine;
use perf_base::{NoMemory, Reply, Script};
use sample_ring::{Rings, make_rings};
use shared_object::Sequential;
use std::alloc::Global;

/// A machine without rings, and the table of its rings, which is empty: what stands behind the turn.
#[derive(Drop)]
pub struct Served {
    pub(crate) machine: Machine,
    pub(crate) rings: Rings,
}

/// All calls that were made, each with its reply, in their order.
pub type History = shared_object::History<Served>;

/// The machine of a script without rings, each of whose processors is of a PMU, before its first call. It takes all
/// memory that its calls need. A caller of one thread makes them by `apply`, at most 16,384.
pub fn serve(alloc: Global, script: &Script) -> Result<Served, NoMemory>
    requires covered { IsCovered script.now }
    requires rings { script.now.rings ≡ [] }
    ensures { IfOk result (λ served. IsAfter script.now served []) }
{
    let (rings, outs, _readers) = make_rings(alloc, script.rings(), 0)?;
    let machine = Machine::new(alloc, script, outs)?;
    Ok(Served { machine, rings })
}

impl Sequential for Served {
    type Key = Script;

    type Call = Call;

    type Reply = Reply;

    ghost after = { IsAfter };

    ghost legal = { AreLegal };

    ghost fits = { Fits };

    fn apply(&mut self, call: &Call) -> Reply {
        match call {
            Call::Tool(line) => self.machine.tool_line(line),
            Call::Cpu(cpu, line) => self.machine.cpu_line(&self.rings, *cpu, line),
        }
    }

    ghost legal_from_the_start = { none_legal };
}
