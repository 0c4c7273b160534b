//! What is planned from before a processor's next line.

ghost use Rattle.std.specs.Prelude.{◌≡◌};
ghost use Rattle.perf_base.specs.Scripts.{IsCovered};
ghost use Rattle.machine.specs.Leading.{IsOf};
ghost use Rattle.machine.specs.Prepared.{prepared};

use crate::machine::Machine;
use cpu_sched::Sheet;
use perf_base::{Actor, CpuNo, Script};

impl Machine {
    /// Puts the brief that a processor's next line leads to into a sheet, not planned; the sheet is made blank where
    /// the processor has no line left. The script is the one that the machine was made for.
    pub fn prepare(&self, script: &Script, cpu: CpuNo, sheet: &mut Sheet)
        requires covered { IsCovered script.now }
        requires script { IsOf script.now self.now }
        ensures { sheet.new ≡ prepared script.now self.now cpu }
    {
        script.use_invariant();
        if !self.has_line(script, Actor::Processor(cpu)) {
            sheet.clear();
            return;
        }
        let done = self.cpus[cpu.0 as usize];
        sheet.fill(&self.world, cpu, &script.cpu_lines(cpu)[done as usize]);
    }
}
