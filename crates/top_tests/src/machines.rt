//! A machine that is called by one pass, by two threads, and by two threads whose first calls meet; and which calls may
//! be made.

ghost use Rattle.std.specs.Prelude.{◌≡◌, [], IfOk};
ghost use Rattle.shared_object.specs.Histories.{BelongsTo};
ghost use Rattle.perf_share.specs.Calls.{Fits};

use crate::checks::{check, check_eq};
use crate::signal::Signal;
use crate::watching::{call_often, open, read, work};
use perf_base::{
    CpuLine, CpuNo, EventNo, Name, NoMemory, Reply, RingNo, Script, TaskNo, ToolLine, Words,
};
use perf_share::{Answer, Call, Pass, Share, meet};
use std::alloc::Global;
use std::process::Abort;
use std::sync::Wait;
use std::test::Fail;
use std::thread::join;

// One processor with one counter, which counts cycles.
fn one_counter(alloc: Global) -> Result<Script, NoMemory>
    ensures { IfOk result (λ script. script.rings ≡ []) }
{
    let mut script = Script::new(alloc, 1);
    script.add_pmu(1, 1)?;
    script.add_kind(Name::from_slice(b"cycles"), 0, 1)?;
    Ok(script)
}

// Two processors with a counter each.
fn two_processors(alloc: Global) -> Result<Script, NoMemory>
    ensures { IfOk result (λ script. script.rings ≡ []) }
{
    let mut script = Script::new(alloc, 2);
    script.add_pmu(1, 3)?;
    Ok(script)
}

// The shared machine of a script, and its first pass.
fn share_of(rt: &impl Abort, alloc: Global, script: &Script) -> Result<(Share, Pass), Fail>
    requires { script.now.rings ≡ [] }
    ensures { IfOk result (λ r. BelongsTo r.1 r.0) }
{
    check(rt, script.is_covered());
    let made = Share::new(alloc, script);
    Ok(made.ok().ok_or("memory")?)
}

// Tries a call that fits.
fn try_fitting(rt: &impl Abort, share: &Share, pass: &mut Pass, call: &Call) -> Answer<Reply>
    requires { BelongsTo pass.old share.now }
    ensures { BelongsTo pass.new share.now }
{
    check(rt, share.fits(call));
    share.try_call(pass, call)
}

#[test]
fn one_pass_opens_works_and_reads(rt: HostRuntime) -> Result<(), Fail> {
    let alloc: Global = rt.alloc();
    let script = one_counter(alloc).ok().ok_or("memory")?;
    let (share, mut pass) = share_of(&rt, alloc, &script)?;
    let opened = try_fitting(&rt, &share, &mut pass, &open(0));
    let worked = try_fitting(&rt, &share, &mut pass, &work(0, 100, 500));
    let told = try_fitting(&rt, &share, &mut pass, &read(0));
    check_eq(&rt, opened, Answer::Done(Reply::Ok));
    check_eq(&rt, worked, Answer::Done(Reply::Ok));
    let words = Words::from_slice(&[500, 100, 100]);
    check_eq(&rt, told, Answer::Done(Reply::Read(words)));
    let history = share.close(pass).ok().ok_or("a call is under way")?;
    check(&rt, history.len() == 3);
    let (call, reply) = history.get(1);
    check_eq(&rt, *call, work(0, 100, 500));
    check_eq(&rt, *reply, Reply::Ok);
    Ok(())
}

#[test]
fn which_calls_fit(rt: HostRuntime) -> Result<(), Fail> {
    let alloc: Global = rt.alloc();
    let script = one_counter(alloc).ok().ok_or("memory")?;
    let (share, _pass) = share_of(&rt, alloc, &script)?;
    let event = EventNo(0);
    let table = [
        (open(255), true),
        (open(256), false),
        (work(0, 1_000_000_000, 1_000_000_000), true),
        (work(0, 1_000_000_001, 0), false),
        (work(0, 1, 1_000_000_001), false),
        (work(1, 1, 0), false),
        (
            Call::Tool(ToolLine::Map {
                event,
                ring: RingNo(0),
            }),
            false,
        ),
        (
            Call::Tool(ToolLine::Output {
                event,
                target: EventNo(1),
            }),
            true,
        ),
        (Call::Tool(ToolLine::Seats { cpu: CpuNo(1) }), false),
        (Call::Cpu(CpuNo(0), CpuLine::Fork(TaskNo(63))), true),
        (
            Call::Cpu(CpuNo(0), CpuLine::Switch(Some(TaskNo(64)))),
            false,
        ),
    ];
    for (call, fits) in &table {
        check_eq(&rt, share.fits(call), *fits);
    }
    Ok(())
}

#[test]
fn two_threads_have_one_history(rt: HostRuntime) -> Result<(), Fail> {
    let alloc: Global = rt.alloc();
    let script = two_processors(alloc).ok().ok_or("memory")?;
    let (share, mut pass) = share_of(&rt, alloc, &script)?;
    let (left, right) = (work(0, 1, 0), work(1, 1, 0));
    check(&rt, share.fits(&left));
    check(&rt, share.fits(&right));
    let other = pass.split(&share);
    let (mut pass, mut other) = join(
        &rt,
        || call_often(&rt, &share, pass, &left, 100),
        || call_often(&rt, &share, other, &right, 100),
    );
    meet(&share, &mut pass, &mut other);
    check_eq(&rt, share.look(&mut other), 200);
    let history = share.close(pass).ok().ok_or("a call is under way")?;
    check_eq(&rt, history.len(), 200);
    Ok(())
}

// Makes its first call when the other thread has its pass too, and says whether it met the other.
fn call_with_other(
    rt: &impl Wait,
    share: &Share,
    mut pass: Pass,
    call: &Call,
    own: &Signal,
    other: &Signal,
) -> (Pass, bool)
    requires together { BelongsTo pass share.now }
    requires fits { Fits share.now.key call.now }
    ensures { BelongsTo result.0 share.now }
{
    own.announce();
    let met = other.wait();
    let _ = share.call(rt, &mut pass, call);
    (pass, met)
}

#[test]
fn first_calls_of_two_threads_meet(rt: HostRuntime) -> Result<(), Fail> {
    let alloc: Global = rt.alloc();
    let script = two_processors(alloc).ok().ok_or("memory")?;
    let (share, mut pass) = share_of(&rt, alloc, &script)?;
    let (left, right) = (work(0, 1, 0), work(1, 1, 0));
    check(&rt, share.fits(&left));
    check(&rt, share.fits(&right));
    let other = pass.split(&share);
    let (one, two) = (Signal::new(), Signal::new());
    let ((pass, one_met), (_, two_met)) = join(
        &rt,
        || call_with_other(&rt, &share, pass, &left, &one, &two),
        || call_with_other(&rt, &share, other, &right, &two, &one),
    );
    check(&rt, one_met && two_met);
    let history = share.close(pass).ok().ok_or("a call is under way")?;
    check_eq(&rt, history.len(), 2);
    Ok(())
}

// A value of this type may go to another thread.
fn crosses<T: Send>(value: T) -> T
    ensures { result ≡ value }
{
    value
}

// A value of this type may be seen by several threads.
fn is_shared<T: Sync>(_value: &T) {}

// A shared machine and its passes may go to other threads.
fn all_cross(share: Share, pass: Pass) -> (Share, Pass) {
    is_shared(&share);
    (crosses(share), crosses(pass))
}
