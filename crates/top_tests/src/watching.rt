//! One thread works, and another watches what the work counts: the file that docs/SHARING.md prints.

ghost use Rattle.std.specs.Prelude.{◌≡◌, [], IfOk, IfSome};
ghost use Rattle.perf_base.specs.Scripts.{IsCovered};
ghost use Rattle.shared_object.specs.Histories.{BelongsTo};
ghost use Rattle.perf_share.specs.Calls.{Fits};

use crate::checks::{check, check_eq};
use perf_base::{
    Attr, AttrFlags, CpuLine, CpuNo, CpuSel, EventNo, Kind, Mode, Reply, Script, TaskSel, ToolLine,
    Words, Work,
};
use perf_share::{Answer, Call, Pass, Share, meet};
use script_read::read_script;
use std::alloc::Global;
use std::sync::Wait;
use std::test::Fail;
use std::thread::join;

// One processor with one counter, which counts cycles.
const MACHINE: [u8; 56] = *b"perf 1\nmachine cpus=1 counters=1\nkind cycles mask=1\nend\n";

// The script of a text, which declares the machine, if it has no rings.
fn script_without_rings(alloc: Global, text: &[u8]) -> Option<Script>
    ensures { IfSome result (λ script. IsCovered script × (script.rings ≡ [])) }
{
    if text.len() > 4_194_304 {
        return None;
    }
    let Ok(script) = read_script(alloc, text) else {
        return None;
    };
    if script.rings().is_empty() {
        Some(script)
    } else {
        None
    }
}

// The shared machine of a script, and its first pass.
fn share_of(alloc: Global, script: &Script) -> Result<(Share, Pass), Fail>
    requires { IsCovered script.now × (script.now.rings ≡ []) }
    ensures { IfOk result (λ r. BelongsTo r.1 r.0) }
{
    let made = Share::new(alloc, script);
    Ok(made.ok().ok_or("memory")?)
}

// Cycles on processor 0, with both times in each read.
pub(crate) fn open(slot: u16) -> Call {
    Call::Tool(ToolLine::Open {
        slot: EventNo(slot),
        attr: Attr {
            kind: Kind::Hard(0),
            task: TaskSel::All,
            cpu: CpuSel::One(CpuNo(0)),
            period: 0,
            sample: 0,
            format: 3,
            flags: AttrFlags(0),
        },
        leader: None,
    })
}

pub(crate) fn read(slot: u16) -> Call {
    Call::Tool(ToolLine::Read {
        event: EventNo(slot),
        size: None,
    })
}

// A stretch of work of a processor, in which cycles occur so often.
pub(crate) fn work(cpu: u8, length: u64, cycles: u64) -> Call {
    Call::Cpu(
        CpuNo(cpu),
        CpuLine::Work(Work {
            length,
            mode: Mode::User,
            ip: 0,
            hits: [cycles, 0, 0, 0, 0, 0, 0, 0, 0, 0, 0, 0, 0, 0, 0, 0],
        }),
    )
}

// Makes a call a number of times.
pub(crate) fn call_often(
    rt: &impl Wait,
    share: &Share,
    mut pass: Pass,
    call: &Call,
    times: u64,
) -> Pass
    requires together { BelongsTo pass share.now }
    requires fits { Fits share.now.key call.now }
    ensures { BelongsTo result share.now }
{
    for _ in 0..times {
        let _ = share.call(rt, &mut pass, call);
    }
    pass
}

// What a watcher found: how often a call was under way, and whether what it read ever fell.
#[derive(Clone, Copy, PartialEq, Eq, Debug)]
struct Watched {
    busy: u64,
    fell: bool,
}

// The count that a read gave, if it gave one.
fn count_of(answer: &Answer<Reply>) -> Option<u64> {
    match answer {
        Answer::Done(Reply::Read(words)) => words.as_slice().first().copied(),
        _ => None,
    }
}

// Reads an event a number of times, and goes on at once where a call of another thread is under way.
fn watch(share: &Share, mut pass: Pass, call: &Call, times: u64) -> (Pass, Watched)
    requires together { BelongsTo pass share.now }
    requires fits { Fits share.now.key call.now }
    ensures { BelongsTo result.0 share.now }
{
    let mut found = Watched {
        busy: 0,
        fell: false,
    };
    let mut last = 0;
    for _ in 0..times {
        let answer = share.try_call(&mut pass, call);
        if let Answer::Busy { turn: _ } = answer {
            found.busy = found.busy.saturating_add(1);
        }
        if let Some(count) = count_of(&answer) {
            found.fell = found.fell || count < last;
            last = count;
        }
    }
    (pass, found)
}

#[test]
fn a_watcher_reads_what_a_worker_counts(rt: HostRuntime) -> Result<(), Fail> {
    let alloc: Global = rt.alloc();
    let script = script_without_rings(alloc, &MACHINE).ok_or("no script, or no memory")?;
    let (share, mut pass) = share_of(alloc, &script)?;
    // A call has to fit the script: test it once.
    let (open, work, read) = (open(0), work(0, 100, 500), read(0));
    check(&rt, share.fits(&open));
    check(&rt, share.fits(&work));
    check(&rt, share.fits(&read));
    // Nobody else has a pass yet, so this call is made at once.
    let opened = share.try_call(&mut pass, &open);
    check_eq(&rt, opened, Answer::Done(Reply::Ok));
    // Each thread has a pass of its own. The worker's has seen the open.
    let worker = pass.split(&share);
    let ((mut watcher, found), mut worker) = join(
        &rt,
        || watch(&share, pass, &read, 200),
        || call_often(&rt, &share, worker, &work, 100),
    );
    check(&rt, !found.fell);
    // Each of the two has then seen all that either had seen.
    meet(&share, &mut watcher, &mut worker);
    let last = share.call(&rt, &mut watcher, &read);
    let words = Words::from_slice(&[50_000, 10_000, 10_000]);
    check_eq(&rt, last, Answer::Done(Reply::Read(words)));
    // All calls with their replies, in their order: the open, the work, and each read that found no call under way.
    let history = share.close(watcher).ok().ok_or("a call is under way")?;
    let calls = history.len() as u64;
    check_eq(&rt, Some(calls), 302_u64.checked_sub(found.busy));
    Ok(())
}
