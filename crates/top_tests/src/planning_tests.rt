//! Lines of a processor by sheets that are planned in time.

ghost use Rattle.std.specs.Prelude.{◌≡◌, ◌<◌, ◌≤◌, true, []};
ghost use Rattle.perf_base.specs.Scripts.{IsCpuLine, IsToolLine};
ghost use Rattle.perf_base.specs.declared.acts.Actor.TheVariants as actor;
ghost use Rattle.work_account.specs.Ends.{AreTogether};
ghost use Rattle.machine.specs.Leading.{HasLine};
ghost use Rattle.machine.specs.Prepared.{prepared};
ghost use Rattle.top_tests.specs.LateOpen.{opening, stretch};
ghost use Rattle.perf_book.specs.Sheets.{IsReady};

use crate::checks::check;
use crate::late_open_tests::shared_counter;
use crate::processor_tests::begin;
use cpu_sched::Sheet;
use perf_base::{
    Actor, Attr, AttrFlags, CpuLine, CpuNo, CpuSel, EventNo, Kind, Mode, Steps, TaskSel, ToolLine,
    ToolNo, Work,
};
use perf_book::Book;
use sample_ring::Rings;
use std::alloc::Global;
use std::marker::Brand;
use std::process::Abort;
use std::sync::ledger::{Blank, Ledger};
use std::test::Fail;

// Plans a sheet that is not blank, so that it is ready for the next line of its processor.
fn plan_next<L: Ledger>(sheet: &mut Sheet, tests: &mut Steps<L>)
    ensures brief { sheet.new.brief ≡ sheet.old.brief }
    ensures ready { IsReady sheet.new }
{
    if sheet.blank() {
        return;
    }
    sheet.plan(tests);
}

// The next line of a processor by a sheet that was filled behind its last line, and that is planned just now: no
// counter is tested in the line.
fn go_by_plan<L: Ledger, P: Ledger>(
    book: &mut Book,
    rings: &Rings,
    cpu: CpuNo,
    sheet: &mut Sheet,
    tests: &mut Steps<L>,
    planning: &mut Steps<P>,
)
    requires together { AreTogether rings.now book.old.machine.outs }
    requires line { HasLine book.old.script book.old.machine (actor.Processor cpu) }
    requires filled { sheet.old ≡ prepared book.old.script book.old.machine cpu }
    ensures free { tests.new ≡ tests.old }
    ensures filled { sheet.new ≡ prepared book.new.script book.new.machine cpu }
    ensures together { AreTogether rings.now book.new.machine.outs }
{
    plan_next(sheet, planning);
    book.advance(rings, Actor::Processor(cpu), sheet, tests);
}

// Two lines of a processor by sheets that are planned in time. It answers whether there were two.
fn two_by_plan<L: Ledger, P: Ledger>(
    book: &mut Book,
    rings: &Rings,
    cpu: CpuNo,
    sheet: &mut Sheet,
    tests: &mut Steps<L>,
    planning: &mut Steps<P>,
) -> bool
    requires together { AreTogether rings.now book.old.machine.outs }
    requires filled { sheet.old ≡ prepared book.old.script book.old.machine cpu }
    ensures free { tests.new ≡ tests.old }
{
    for _ in 0..2 {
        if !book.has_line(Actor::Processor(cpu)) {
            return false;
        }
        go_by_plan(book, rings, cpu, sheet, tests, planning);
    }
    true
}

// A stretch of work in which the kind occurs so often.
pub fn stretch(occurrences: u64) -> CpuLine
    requires { occurrences ≤ 1000000000 }
    ensures line { result ≡ stretch occurrences }
    ensures fits { IsCpuLine 1 result }
{
    CpuLine::Work(Work {
        length: 10,
        mode: Mode::User,
        ip: 0,
        hits: [occurrences, 0, 0, 0, 0, 0, 0, 0, 0, 0, 0, 0, 0, 0, 0, 0],
    })
}

// An event of the kind on the processor, in a slot.
pub fn open(slot: u16) -> ToolLine
    requires { slot < 256 }
    ensures line { result ≡ opening slot }
    ensures fits { IsToolLine 1 1 [] result }
{
    let attr = Attr {
        kind: Kind::Hard(0),
        task: TaskSel::All,
        cpu: CpuSel::One(CpuNo(0)),
        period: 0,
        sample: 0,
        format: 3,
        flags: AttrFlags(0),
    };
    ToolLine::Open {
        slot: EventNo(slot),
        attr,
        leader: None,
    }
}

// Does two lines of the tool, and the first one of a processor. It answers whether there were so many.
fn begin_lines<P: Ledger>(
    book: &mut Book,
    rings: &Rings,
    cpu: CpuNo,
    sheet: &mut Sheet,
    planning: &mut Steps<P>,
) -> bool
    requires together { AreTogether rings.now book.old.machine.outs }
    requires sheet { IsReady sheet.old }
    ensures together { AreTogether rings.now book.new.machine.outs }
    ensures filled { result ≡ true → sheet.new ≡ prepared book.new.script book.new.machine cpu }
{
    for _ in 0..2 {
        if !book.has_line(Actor::Tool(ToolNo(0))) {
            return false;
        }
        book.advance(rings, Actor::Tool(ToolNo(0)), sheet, planning);
    }
    if !book.has_line(Actor::Processor(cpu)) {
        return false;
    }
    book.advance(rings, Actor::Processor(cpu), sheet, planning);
    true
}

// Two lines of the processor by plan, behind those that began. It answers whether all were there.
fn lines_by_plan<L: Ledger, P: Ledger>(
    book: &mut Book,
    rings: &Rings,
    sheet: &mut Sheet,
    counted: Blank,
    planned: Blank,
) -> bool
    requires name { counted.name ≡ L.name }
    requires parts { counted.parts ≡ L.parts }
    requires some { 0 < counted.parts }
    requires planned_name { planned.name ≡ P.name }
    requires planned_parts { planned.parts ≡ P.parts }
    requires planned_some { 0 < planned.parts }
    requires together { AreTogether rings.now book.old.machine.outs }
    requires sheet { IsReady sheet.old }
{
    let mut tests = Steps::<L>::new(counted);
    let mut planning = Steps::<P>::new(planned);
    begin_lines(book, rings, CpuNo(0), sheet, &mut planning)
        && two_by_plan(book, rings, CpuNo(0), sheet, &mut tests, &mut planning)
}

#[test]
fn lines_planned_in_time_test_no_counter(rt: HostRuntime) -> Result<(), Fail> {
    let alloc: Global = rt.alloc();
    let mut sheet = Sheet::new(alloc)?;
    let script = shared_counter(alloc).ok().ok_or("memory")?;
    let (mut book, rings, _ins) = begin(&rt, alloc, script)?;
    let went = lines_by_plan::<Brand, Brand>(
        &mut book,
        &rings,
        &mut sheet,
        Blank::new(1),
        Blank::new(1),
    );
    check(&rt, went);
    check(&rt, !book.has_line(Actor::Processor(CpuNo(0))));
    Ok(())
}
