//! Lines that are given to the machine, whether its script has them or not.

ghost use Rattle.std.specs.Prelude.{◌≡◌, [], ◌∷◌, ◌++◌, List};
ghost use Rattle.perf_base.specs.Scripts.{Scripted};
ghost use Rattle.stage_spec.specs.History.{Step, CpuStep, ToolStep};
ghost use Rattle.machine.specs.Given.{IsLedBy, IsNext, IsReplyAfter, Takes, TakesAlone};
ghost use Rattle.machine.specs.Stepped.{StaysIfIdle, StaysIfRefused};
ghost use Rattle.work_account.specs.Ends.{AreTogether};

use crate::given::{cpu_line_alone, tool_line_alone};
use crate::machine::Machine;
use perf_base::{CpuLine, CpuNo, Reply, ToolLine};
use sample_ring::Rings;
use std::marker::Brand;
use std::sync::ledger::Blank;

// `line` and `step` do the script's own next lines, and ask for acts of the script that lead to the machine. A given
// line is no act of a script, so where one has changed the machine they may not be called any more.
impl Machine {
    /// Does a given line of a tool, with every rescheduling that it makes necessary, and answers it. The line keeps the
    /// limits of the script that the machine was made for, and fewer than 16,384 lines were given before. The ends that
    /// send stay as they were, and a line that is refused or asks something leaves the world as it was. It takes no
    /// memory.
    pub fn tool_line(&mut self, line: &ToolLine) -> Reply
        requires { Takes self.old (ToolStep line.now) }
        // After any given lines that lead here, the answer is the reply to this one, and with it they lead to the
        // machine then.
        ensures reply { (s : Scripted) (steps : List Step) → IsLedBy s steps self.old → IsReplyAfter s steps (ToolStep line.now) result }
        ensures led { (s : Scripted) (steps : List Step) → IsNext s steps self.old (ToolStep line.now) → IsLedBy s (steps ++ ToolStep line.now ∷ []) self.new }
        ensures same { StaysIfRefused self.old.world self.new.world result }
        ensures idle { StaysIfIdle (ToolStep line.now) self.old.world self.new.world }
        ensures rest { self.new ≡ record self.old { world = self.new.world } }
    {
        self.world.use_invariant();
        tool_line_alone::<Brand>(&mut self.world, line, Blank::new(1))
    }

    /// Does a given line of a processor, as `tool_line` does one of a tool. The script has no rings, and `rings` are
    /// those of the machine's ends: none.
    pub fn cpu_line(&mut self, rings: &Rings, cpu: CpuNo, line: &CpuLine) -> Reply
        requires line { TakesAlone self.old (CpuStep cpu line.now) }
        requires together { AreTogether rings.now self.old.outs }
        ensures reply { (s : Scripted) (steps : List Step) → IsLedBy s steps self.old → IsReplyAfter s steps (CpuStep cpu line.now) result }
        ensures led { (s : Scripted) (steps : List Step) → IsNext s steps self.old (CpuStep cpu line.now) → IsLedBy s (steps ++ CpuStep cpu line.now ∷ []) self.new }
        ensures same { StaysIfRefused self.old.world self.new.world result }
        ensures idle { StaysIfIdle (CpuStep cpu line.now) self.old.world self.new.world }
        ensures rest { self.new ≡ record self.old { cpus = self.new.cpus; world = self.new.world } }
    {
        self.world.use_invariant();
        let done = self.cpus[cpu.0 as usize] + 1;
        self.cpus[cpu.0 as usize] = done;
        cpu_line_alone::<Brand>(
            &mut self.world,
            cpu,
            line,
            rings,
            &mut self.outs,
            Blank::new(1),
        )
    }
}
