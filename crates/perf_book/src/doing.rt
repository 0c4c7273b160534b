//! Lines and acts, with their answers.

ghost use Rattle.std.specs.Prelude.{◌≡◌, ◌<◌, ◌≤◌, true, false, List, [], ◌∷◌, ◌++◌, Some, None, length, vec_capacity, vec_len};
ghost use Rattle.perf_base.specs.declared.acts.Act.{Act as ActNo};
ghost use Rattle.perf_base.specs.Scripts.{IsCovered, Scripted};
ghost use Rattle.perf_base.specs.Weight.{weight};
ghost use Rattle.stage_spec.specs.Replies.{AnswerOrder, lines_of_act};
ghost use Rattle.work_account.specs.Ends.{AreTogether};
ghost use Rattle.stage_spec.specs.History.{Step};
ghost use Rattle.machine.specs.Counted.{IsCountedBy};
ghost use Rattle.machine.specs.Leading.{HasLine, IsOf, LeadTo, act_of, done_by, next_step};
ghost use Rattle.machine.specs.Readers.{loads_of};
ghost use Rattle.report_spec.specs.Answers.{lost_in};
ghost use Rattle.perf_book.specs.Keeping.{KeepsAnswer, kept, line_in, next_line};
ghost use Rattle.perf_book.specs.Sheets.{IsReady, goes_by_plan, sheet_after};

use cpu_sched::Sheet;
use machine::Machine;
use perf_base::{Act, Actor, Answer, Answers, CpuLine, Reply, RingNo, Script, Steps};
use sample_ring::Rings;
use std::sync::ledger::Ledger;

/// The act that does an actor's next line. A reader and a watcher have no line, and their looks see nothing.
fn act_of(actor: Actor) -> Act
    ensures { result ≡ act_of actor }
{
    match actor {
        Actor::Processor(cpu) => Act::Processor(cpu),
        Actor::Tool(tool) => Act::Tool(tool),
        Actor::Reader(ring) => Act::Seen(ring, 0),
        Actor::Watcher => Act::Seen(RingNo(0), 0),
    }
}

/// Does an actor's next line by a sheet, and keeps its act and its answer in lists that have room for them.
pub fn do_line<L: Ledger>(
    machine: &mut Machine,
    script: &Script,
    rings: &Rings,
    order: &mut Vec<Act>,
    answers: &mut Answers,
    actor: Actor,
    sheet: &Sheet,
    tests: &mut Steps<L>,
)
    requires covered { IsCovered script.now }
    requires light { weight script.now ≤ 65536 }
    requires led { LeadTo script.now order.old.items machine.old }
    requires answered { AnswerOrder script.now (lost_in script.now) order.old.items answers.old.items }
    requires together { AreTogether rings.now machine.old.outs }
    requires line { HasLine script.now machine.old actor }
    requires order_room { vec_len order.old < vec_capacity order.old }
    requires answer_room { length answers.old.items < answers.old.room }
    ensures order { order.new.items ≡ order.old.items ++ act_of actor ∷ [] }
    ensures answer { KeepsAnswer (Some (actor, done_by actor machine.old)) machine.old machine.new answers.old.items answers.new.items }
    ensures led { LeadTo script.now order.new.items machine.new }
    ensures answered { AnswerOrder script.now (lost_in script.now) order.new.items answers.new.items }
    ensures loads { loads_of machine.new.outs ≡ loads_of machine.old.outs }
    ensures together { AreTogether rings.now machine.new.outs }
    ensures order_capacity { vec_capacity order.new ≡ vec_capacity order.old }
    ensures answer_capacity { answers.new.room ≡ answers.old.room }
    ensures counted { (x : Step) → next_step script.now machine.old actor ≡ Some x
        → IsCountedBy (Some sheet.now) x machine.old.world machine.new.world tests.old tests.new }
{
    let number = machine.done(actor);
    let reply = machine.line(script, rings, actor, Some(sheet), tests);
    order.push_reserved(act_of(actor));
    answers.push_reserved(Answer {
        actor,
        number,
        reply,
    });
}

/// Puts the brief that a processor's next line leads to into its sheet, or makes it blank where there is none. A tool's
/// sheet stays.
pub fn prepare_next(machine: &Machine, script: &Script, actor: Actor, sheet: &mut Sheet)
    requires covered { IsCovered script.now }
    requires script { IsOf script.now machine.now }
    ensures { sheet.new ≡ sheet_after script.now machine.now actor sheet.old }
{
    match actor {
        Actor::Processor(cpu) => machine.prepare(script, cpu, sheet),
        Actor::Tool(_) | Actor::Reader(_) | Actor::Watcher => {}
    }
}

/// Whether an actor's next line may go by a plan: it is a processor's, and not work, which tests no counter in any
/// case.
pub fn goes_by_plan(machine: &Machine, script: &Script, actor: Actor) -> bool
    ensures { result ≡ goes_by_plan (next_step script.now machine.now actor) }
{
    script.use_invariant();
    if !machine.has_line(script, actor) {
        return false;
    }
    match actor {
        Actor::Processor(cpu) => {
            let line = &script.cpu_lines(cpu)[machine.done(actor) as usize];
            !matches!(line, CpuLine::Work(_))
        }
        Actor::Tool(_) | Actor::Reader(_) | Actor::Watcher => false,
    }
}

/// Makes a sheet ready for the next line of its actor: its brief is planned where the line may go by a plan, and else
/// the sheet is made blank.
pub fn make_ready<L: Ledger>(sheet: &mut Sheet, by_plan: bool, tests: &mut Steps<L>)
    ensures brief { by_plan ≡ true → sheet.new.brief ≡ sheet.old.brief }
    ensures blank { by_plan ≡ false → sheet.new.brief ≡ None }
    ensures ready { IsReady sheet.new }
{
    if !by_plan {
        sheet.clear();
        return;
    }
    if !sheet.blank() {
        sheet.plan(tests);
    }
}

/// Whose line an act does next, and the line's number. A look at a ring does none.
pub fn line_of(machine: &Machine, act: Act) -> Option<(Actor, u32)>
    ensures line { result ≡ next_line machine.now act }
    ensures led { (s : Scripted) (acts : List ActNo) → LeadTo s acts machine.now → lines_of_act acts act ≡ line_in result }
{
    match act {
        Act::Processor(cpu) => {
            let actor = Actor::Processor(cpu);
            Some((actor, machine.done(actor)))
        }
        Act::Tool(tool) => {
            let actor = Actor::Tool(tool);
            Some((actor, machine.done(actor)))
        }
        Act::Seen(..) => None,
    }
}

/// Keeps the answer to a line, where an act did one, in a list that has room for it.
pub fn keep(answers: &mut Answers, line: Option<(Actor, u32)>, reply: Reply)
    requires { length answers.old.items < answers.old.room }
    ensures items { answers.new.items ≡ answers.old.items ++ kept line reply }
    ensures room { answers.new.room ≡ answers.old.room }
{
    if let Some((actor, number)) = line {
        answers.push_reserved(Answer {
            actor,
            number,
            reply,
        });
    }
}
