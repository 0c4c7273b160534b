//! The book.

ghost use Rattle.std.specs.Prelude.{◌≡◌, ℕ, ◌+◌, ◌*◌, ◌<◌, ◌≤◌, ◌↔◌, true, false, IsTrue, List, [], ◌∷◌, ◌++◌, Err, IfOk, OnErr, OnOk, Some, length, map, vec_capacity};
ghost use Rattle.perf_base.specs.declared.acts.Act.{Act as ActNo};
ghost use Rattle.perf_base.specs.declared.numbers.RingNo.{RingNo as Ring};
ghost use Rattle.perf_base.specs.Scripts.{IsCovered};
ghost use Rattle.perf_base.specs.Weight.{weight};
ghost use Rattle.ring_spec.specs.Running.{empty_ring};
ghost use Rattle.work_account.specs.Ends.{AreTogether, HaveAccounts};
ghost use Rattle.perf_base.specs.declared.lines.CpuLine.TheVariants as cpu_line;
ghost use Rattle.perf_base.specs.declared.lines.Work.{Work as Stretch};
ghost use Rattle.perf_base.specs.declared.numbers.CpuNo.{CpuNo as Cpu};
ghost use Rattle.stage_spec.specs.History.{Step, CpuStep};
ghost use Rattle.stage_spec.specs.Tables.{family_if_open};
ghost use Rattle.machine.specs.Counted.{IsCountedBy};
ghost use Rattle.machine.specs.Leading.{HasLine, act_of, done_by, next_step};
ghost use Rattle.machine.specs.Readers.{AreFollowing, loads_of};
ghost use Rattle.machine.specs.Stepping.{HasNoLine, IsUnlawful, LeavesReaders, NamesRing};
ghost use Rattle.perf_book.specs.Book.{AreLooksOf, Booked, HasRoomFor, IsBooked, MayAct, loads_by};
ghost use Rattle.perf_book.specs.Keeping.{KeepsAnswer, next_line};
ghost use Rattle.perf_book.specs.Sheets.{MayBring, goes_by_plan, sheet_after};

use crate::doing::{do_line, goes_by_plan, keep, line_of, prepare_next};
use crate::looking::look_before;
use crate::making::count_acts;
use cpu_sched::Sheet;
use machine::{Machine, OrderFault};
use perf_base::{Act, Actor, Answers, EventNo, NoMemory, Script, Steps, Sums};
use run_end::RingEnd;
use sample_ring::{Ins, Outs, Rings};
use std::alloc::Global;
use std::marker::Model;
use std::sync::ledger::Ledger;

/// A script, the machine that does its lines, the order in which they were done, with the looks at rings between them,
/// and the answers to them. It has room for all acts of a run.
#[derive(Drop)]
pub struct Book {
    pub(crate) script: Script,
    pub(crate) machine: Machine,
    pub(crate) order: Vec<Act>,
    pub(crate) answers: Answers,
    pub(crate) ends: Vec<RingEnd>,
}

impl Model for Book {
    ghost use Rattle.std.specs.Prelude.{◌≡◌, [], vec_capacity, vec_len};
    ghost use Rattle.perf_book.specs.Book.{Booked, HasRoomFor, IsBooked};
    ghost use Rattle.perf_book.specs.Codes.{booked_code};

    ghost Value = { Booked };

    ghost coded = { booked_code };

    ghost view = { λ b. record { script = b.script; machine = b.machine; order = b.order.items; answers = b.answers.items } };

    ghost invariant = { λ b. IsBooked (record { script = b.script; machine = b.machine; order = b.order.items; answers = b.answers.items })
        × HasRoomFor b.script (vec_capacity b.order) b.answers.room (vec_capacity b.ends) × (b.ends.items ≡ []) };
}

/// Empty lists with room for all acts of a script, for the answers to its lines, and for what its rings come to.
fn empty_lists(
    alloc: Global,
    script: &Script,
) -> Result<(Vec<Act>, Answers, Vec<RingEnd>), NoMemory>
    ensures empty { IfOk result (λ r. (r.0.items ≡ []) × (r.1.items ≡ []) × (r.2.items ≡ [])) }
    ensures room { IfOk result (λ r. HasRoomFor script.now (vec_capacity r.0) r.1.room (vec_capacity r.2)) }
{
    let order = Vec::with_capacity(alloc, count_acts(script))?;
    let answers = Answers::with_room(alloc, script.line_count() as u32 + 1)?;
    let ends = Vec::with_capacity(alloc, script.rings().len())?;
    Ok((order, answers, ends))
}

impl Book {
    /// A book whose lines are all still to be done, of a script each of whose processors is of a PMU and of a weight
    /// of at most 65,536, and of the ends that send of the script's rings, which are new. It takes all memory that the
    /// book and its machine will need, and fails only where there is not so much; then script and ends are gone. A run
    /// by threads needs sheets too, and a watched one a page.
    pub fn new(alloc: Global, script: Script, outs: Outs) -> Result<Book, NoMemory>
        requires covered { IsCovered script }
        requires light { weight script ≤ 65536 }
        requires ends { HaveAccounts outs (map empty_ring script.rings) }
        ensures script { IfOk result (λ b. b.script ≡ script) }
        ensures outs { IfOk result (λ b. b.machine.outs ≡ outs) }
        ensures empty { IfOk result (λ b. (b.order ≡ []) × (b.answers ≡ [])) }
    {
        let (order, answers, ends) = empty_lists(alloc, &script)?;
        let machine = Machine::new(alloc, &script, outs)?;
        Ok(Book {
            script,
            machine,
            order,
            answers,
            ends,
        })
    }

    /// The script.
    pub fn script(&self) -> &Script
        ensures script { result.now ≡ self.now.script }
        ensures sound { IsBooked self.now }
    {
        &self.script
    }

    /// The machine that the acts lead to.
    pub fn machine(&self) -> &Machine
        ensures machine { result.now ≡ self.now.machine }
        ensures sound { IsBooked self.now }
    {
        &self.machine
    }

    /// How many acts were done, looks at rings among them.
    pub(crate) fn act_count(&self) -> u64
        ensures { result ≡ length self.now.order }
    {
        self.order.len() as u64
    }

    /// What an event has counted, and the lengths of work for which it was enabled and on a counter: its own and those
    /// of its copies, the copies that have exited among them. None exactly where the event is not open.
    pub fn family(&self, event: EventNo) -> Option<Sums>
        ensures sums { result ≡ family_if_open self.now.script self.now.order event }
        ensures sound { IsBooked self.now }
    {
        self.machine.family(event)
    }

    /// Whether the actor is a processor or a tool that has done fewer lines than the script gives it.
    pub fn has_line(&self, actor: Actor) -> bool
        ensures line { IsTrue result ↔ HasLine self.now.script self.now.machine actor }
        ensures sound { IsBooked self.now }
    {
        self.machine.has_line(&self.script, actor)
    }

    /// Whether an actor's next line may go by a plan: it is a processor's, and not work.
    pub(crate) fn goes_by_plan(&self, actor: Actor) -> bool
        ensures { result ≡ goes_by_plan (next_step self.now.script self.now.machine actor) }
    {
        goes_by_plan(&self.machine, &self.script, actor)
    }

    /// Puts the brief that a processor's next line leads to into its sheet, or makes it blank where there is none. A
    /// tool's sheet stays.
    fn prepare(&self, actor: Actor, sheet: &mut Sheet)
        ensures { sheet.new ≡ sheet_after self.now.script self.now.machine actor sheet.old }
    {
        prepare_next(&self.machine, &self.script, actor, sheet);
    }

    /// Prepares the sheet where the actor's next line may go by a plan; else the sheet stays.
    pub(crate) fn prepare_by_plan(&self, actor: Actor, sheet: &mut Sheet)
        ensures plan { goes_by_plan (next_step self.now.script self.now.machine actor) ≡ true → sheet.new ≡ sheet_after self.now.script self.now.machine actor sheet.old }
        ensures none { goes_by_plan (next_step self.now.script self.now.machine actor) ≡ false → sheet.new ≡ sheet.old }
    {
        if self.goes_by_plan(actor) {
            self.prepare(actor, sheet);
        }
    }

    /// What an actor does that has a line left, as `advance` does it, but for the sheet, which stays as it was brought.
    pub(crate) fn do_next_line<L: Ledger>(
        &mut self,
        rings: &Rings,
        actor: Actor,
        sheet: &Sheet,
        tests: &mut Steps<L>,
    )
        requires together { AreTogether rings.now self.old.machine.outs }
        requires line { HasLine self.old.script self.old.machine actor }
        ensures script { self.new.script ≡ self.old.script }
        ensures order { (looks : List ActNo) × AreLooksOf actor self.old.order looks × (self.new.order ≡ self.old.order ++ (looks ++ act_of actor ∷ [])) }
        ensures answer { KeepsAnswer (Some (actor, done_by actor self.old.machine)) self.old.machine self.new.machine self.old.answers self.new.answers }
        ensures loads { loads_of self.new.machine.outs ≡ map (λ n. n + loads_by actor) (loads_of self.old.machine.outs) }
        ensures together { AreTogether rings.now self.new.machine.outs }
        ensures sound { IsBooked self.new }
        ensures counted { (x : Step) → next_step self.old.script self.old.machine actor ≡ Some x
            → IsCountedBy (Some sheet.now) x self.old.machine.world self.new.machine.world tests.old tests.new }
        ensures work { (cpu : Cpu) (work : Stretch) → next_step self.old.script self.old.machine actor ≡ Some (CpuStep cpu (cpu_line.Work work)) → tests.new ≡ tests.old }
    {
        look_before(
            &mut self.machine,
            &self.script,
            rings,
            &mut self.order,
            actor,
        );
        do_line(
            &mut self.machine,
            &self.script,
            rings,
            &mut self.order,
            &mut self.answers,
            actor,
            sheet,
            tests,
        );
    }

    /// What an actor does that has a line left. A processor first loads the tail of each ring once, by rising number,
    /// and keeps each that it saw further than the last look did as an act. Then the line is done, and kept as an act
    /// with its answer. A line that is refused leaves the machine's world as it was. It takes no memory.
    ///
    /// A processor brings a sheet that is blank or planned. Where its brief is the processor's after the line's own
    /// change, its plan is adopted and no counter is tested; a line of work tests none in any case. Else a step of
    /// `tests` is one test of one counter for one event. Then the sheet holds the brief that the processor's next line
    /// leads to, not planned, or is blank where there is none. A tool's sheet is as it was.
    pub fn advance<L: Ledger>(
        &mut self,
        rings: &Rings,
        actor: Actor,
        sheet: &mut Sheet,
        tests: &mut Steps<L>,
    )
        requires together { AreTogether rings.now self.old.machine.outs }
        requires line { HasLine self.old.script self.old.machine actor }
        requires sheet { MayBring actor sheet.old }
        ensures script { self.new.script ≡ self.old.script }
        ensures order { (looks : List ActNo) × AreLooksOf actor self.old.order looks × (self.new.order ≡ self.old.order ++ (looks ++ act_of actor ∷ [])) }
        ensures answer { KeepsAnswer (Some (actor, done_by actor self.old.machine)) self.old.machine self.new.machine self.old.answers self.new.answers }
        ensures loads { loads_of self.new.machine.outs ≡ map (λ n. n + loads_by actor) (loads_of self.old.machine.outs) }
        ensures together { AreTogether rings.now self.new.machine.outs }
        ensures sound { IsBooked self.new }
        ensures counted { (x : Step) → next_step self.old.script self.old.machine actor ≡ Some x
            → IsCountedBy (Some sheet.old) x self.old.machine.world self.new.machine.world tests.old tests.new }
        ensures work { (cpu : Cpu) (work : Stretch) → next_step self.old.script self.old.machine actor ≡ Some (CpuStep cpu (cpu_line.Work work)) → tests.new ≡ tests.old }
        ensures sheet { sheet.new ≡ sheet_after self.new.script self.new.machine actor sheet.old }
    {
        self.do_next_line(rings, actor, sheet, tests);
        self.prepare(actor, sheet);
    }

    /// Does one act of a given order. A processor or a tool does its next line. A look at a ring, which is one of the
    /// script's, is done where the tail may be seen at its place: then the ring's reader takes the records before that
    /// place. The act is kept, with the answer to its line. A line leaves the readers, and one that is refused leaves
    /// the machine's world as it was. Before a look there are fewer looks than acts in the script's own order, and each
    /// reader has room for 9 words for each unit of the script's weight. It takes no memory.
    ///
    /// It fails with `NoLine` exactly where the actor has no line left, and with `BadSeen` exactly where the place is
    /// below the last one seen, above the head or not the end of a record; then nothing changes.
    pub fn act(&mut self, rings: &Rings, ins: &mut Ins, act: Act) -> Result<(), OrderFault>
        requires together { AreTogether rings.now self.old.machine.outs }
        requires following { AreFollowing (9 * weight self.old.script) self.old.machine.outs ins.old }
        requires ring { NamesRing self.old.script act }
        requires looks { MayAct act self.old }
        ensures no_line { result ≡ Err OrderFault.NoLine ↔ HasNoLine self.old.script self.old.machine act }
        ensures unlawful { (ring : Ring) (last head given : ℕ) → result ≡ Err (OrderFault.BadSeen ring last head given) → (act ≡ Act.Seen ring given)
            × IsUnlawful self.old.script self.old.order ring last head given }
        ensures same { OnErr result ((self.new ≡ self.old) × (ins.new ≡ ins.old)) }
        ensures script { self.new.script ≡ self.old.script }
        ensures order { OnOk result (self.new.order ≡ self.old.order ++ act ∷ []) }
        ensures answer { OnOk result (KeepsAnswer (next_line self.old.machine act) self.old.machine self.new.machine self.old.answers self.new.answers) }
        ensures readers { LeavesReaders act ins.old ins.new }
        ensures together { AreTogether rings.now self.new.machine.outs }
        ensures following { AreFollowing (9 * weight self.new.script) self.new.machine.outs ins.new }
        ensures sound { IsBooked self.new }
    {
        let line = line_of(&self.machine, act);
        match self.machine.step(&self.script, rings, ins, act) {
            Err(fault) => Err(fault),
            Ok(reply) => {
                keep(&mut self.answers, line, reply);
                self.order.push_reserved(act);
                Ok(())
            }
        }
    }
}
