//! The machine and its one step.

ghost use Rattle.std.specs.Prelude.{◌≡◌, ◌<◌, ◌≤◌, ◌↔◌, List, [], ◌∷◌, ◌++◌, IfOk, IsTrue, Some, map};
ghost use Rattle.std.specs.Option.{option_copied};
ghost use Rattle.perf_base.specs.declared.acts.Act.{Act};
ghost use Rattle.perf_base.specs.Scripts.{IsCovered};
ghost use Rattle.perf_base.specs.Weight.{weight};
ghost use Rattle.stage_spec.specs.History.{Step};
ghost use Rattle.ring_spec.specs.Running.{empty_ring};
ghost use Rattle.machine.specs.Counted.{IsCountedBy};
ghost use Rattle.machine.specs.Stepped.{StaysIfIdle, StaysIfRefused, seen_of};
ghost use Rattle.work_account.specs.Ends.{AreTogether, HaveAccounts};
ghost use Rattle.machine.specs.Leading.{HasLine, IsOf, IsReplyTo, LeadTo, act_of, done_by, next_step};

use crate::counters::pmus_of;
use crate::given::{cpu_line, tool_line};
use cpu_sched::Sheet;
use perf_base::{Actor, NoMemory, Reply, Script, Steps};
use perf_world::World;
use sample_ring::{Outs, Rings};
use std::alloc::Global;
use std::marker::Model;
use std::sync::ledger::Ledger;

/// A machine that has done some lines of a script. Between two lines every processor stands as rescheduling leaves it,
/// seats included.
#[derive(Drop)]
pub struct Machine {
    pub(crate) cpus: [u32; 8],
    pub(crate) tools: [u32; 4],
    pub(crate) world: World,
    pub(crate) outs: Outs,
}

impl Model for Machine {
    ghost use Rattle.machine.specs.Leading.{Kept, IsWhole};
    ghost use Rattle.machine.specs.Codes.{kept_code};

    ghost Value = { Kept };

    ghost coded = { kept_code };

    ghost view = { λ m. record { cpus = m.cpus; tools = m.tools; world = m.world; outs = m.outs } };

    ghost invariant = { λ m. IsWhole (record { cpus = m.cpus; tools = m.tools; world = m.world; outs = m.outs }) };
}

impl Machine {
    /// A machine that has done no line of a script, each of whose processors is of a PMU, given the ends that send of
    /// the script's rings, which are new. It takes all memory that its lines need, and fails only where there is not so
    /// much.
    pub fn new(alloc: Global, script: &Script, outs: Outs) -> Result<Machine, NoMemory>
        requires covered { IsCovered script.now }
        requires ends { HaveAccounts outs (map empty_ring script.now.rings) }
        ensures led { IfOk result (λ m. LeadTo script.now [] m) }
        ensures outs { IfOk result (λ m. m.outs ≡ outs) }
    {
        Ok(Machine {
            cpus: [0; 8],
            tools: [0; 4],
            world: World::new(alloc, pmus_of(script), script.tasks())?,
            outs,
        })
    }

    /// Whether the actor is a processor or a tool that has done fewer lines than the script gives it.
    pub fn has_line(&self, script: &Script, actor: Actor) -> bool
        ensures { IsTrue result ↔ HasLine script.now self.now actor }
    {
        script.use_invariant();
        match actor {
            Actor::Processor(cpu) => {
                cpu.0 < 8 && (self.cpus[cpu.0 as usize] as usize) < script.cpu_lines(cpu).len()
            }
            Actor::Tool(tool) => {
                tool.0 < 4 && (self.tools[tool.0 as usize] as usize) < script.tool_lines(tool).len()
            }
            Actor::Reader(_) | Actor::Watcher => false,
        }
    }

    /// How many lines an actor has done. A reader and a watcher have none.
    pub fn done(&self, actor: Actor) -> u32
        ensures { result ≡ done_by actor self.now }
    {
        match actor {
            Actor::Processor(cpu) if cpu.0 < 8 => self.cpus[cpu.0 as usize],
            Actor::Tool(tool) if tool.0 < 4 => self.tools[tool.0 as usize],
            _ => 0,
        }
    }

    /// Does the actor's next line, with the records that it sends, then every rescheduling that it makes necessary,
    /// and answers it. The script is the one that the machine was made for, of a weight of at most 65,536, and the
    /// rings are those of its ends. No tail is loaded. A line that is refused leaves the world and the ends as they
    /// were. One that changes nothing, as a switch to what runs already or what a tool asks, leaves the world, seats
    /// included.
    ///
    /// A sheet whose brief is planned, and is the processor's after the line's own change, is adopted where the line
    /// reschedules: the processor's seats are then those of the plan. With such a sheet no counter is tested. Else a
    /// step of `tests` is one test of one counter for one event: for each processor that is rescheduled at least one
    /// for each hardware event that is on afterwards, and at most 272 for each event that counters are tried for.
    /// Where none is rescheduled, as by work, none is tested.
    pub fn line<L: Ledger>(
        &mut self,
        script: &Script,
        rings: &Rings,
        actor: Actor,
        sheet: Option<&Sheet>,
        tests: &mut Steps<L>,
    ) -> Reply
        requires covered { IsCovered script.now }
        requires light { weight script.now ≤ 65536 }
        requires together { AreTogether rings.now self.old.outs }
        requires script { IsOf script.now self.old }
        requires line { HasLine script.now self.old actor }
        // After any acts that lead here, the answer is the reply to the act that does this line, and with that act they
        // lead to the machine then.
        ensures reply { (acts : List Act) → LeadTo script.now acts self.old → IsReplyTo script.now acts (act_of actor) result }
        ensures done { (acts : List Act) → LeadTo script.now acts self.old → LeadTo script.now (acts ++ act_of actor ∷ []) self.new }
        ensures same { StaysIfRefused self.old.world self.new.world result }
        ensures idle { (x : Step) → next_step script.now self.old actor ≡ Some x → StaysIfIdle x self.old.world self.new.world }
        ensures ends { StaysIfRefused self.old.outs self.new.outs result }
        ensures together { AreTogether rings.now self.new.outs }
        ensures seen { seen_of self.new.outs ≡ seen_of self.old.outs }
        ensures counted { (x : Step) → next_step script.now self.old actor ≡ Some x
            → IsCountedBy (option_copied sheet.entry) x self.old.world self.new.world tests.old tests.new }
    {
        script.use_invariant();
        self.world.use_invariant();
        match actor {
            Actor::Processor(cpu) => {
                let done = self.cpus[cpu.0 as usize];
                let line = &script.cpu_lines(cpu)[done as usize];
                self.cpus[cpu.0 as usize] = done + 1;
                cpu_line(
                    &mut self.world,
                    cpu,
                    line,
                    rings,
                    &mut self.outs,
                    sheet,
                    tests,
                )
            }
            Actor::Tool(tool) => {
                let done = self.tools[tool.0 as usize];
                let line = &script.tool_lines(tool)[done as usize];
                self.tools[tool.0 as usize] = done + 1;
                tool_line(&mut self.world, line, tests)
            }
            Actor::Reader(_) | Actor::Watcher => unreachable!(),
        }
    }
}
