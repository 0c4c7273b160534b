//! That shared values cross threads, which bits are flags, and that answers are kept.

ghost use Rattle.std.specs.Prelude.{◌≡◌, ◌+◌, ◌<◌, length};

use crate::checks::{check, check_eq};
use bitflags::Flags;
use counter_match::Seats;
use event_counts::CountAcc;
use event_times::TimeAcc;
use group_lists::GroupList;
use perf_base::{
    Act, Actor, Answer, Answers, Attr, AttrFlags, Cause, Context, CpuLine, CpuNo, CpuSel, CpuSet,
    EventNo, Key, Kind, KindLine, Mode, Name, NoMemory, Own, PmuLine, ReaderLine, Reason, Reply,
    RingNo, Rule, SReason, Script, SeatList, Standing, Steps, Sums, TaskNo, TaskSel, Tight,
    ToolLine, ToolNo, Why, Words, Work,
};
use pmu_model::Pmus;
use sched_rules::Facts;
use std::marker::Brand;
use std::test::Fail;

#[test]
fn flags_are_those_of_their_table(rt: HostRuntime) {
    for bits in [0, 1, 65, 127] {
        check_eq(&rt, AttrFlags::from_bits(bits), Some(AttrFlags(bits)));
    }
    check(&rt, AttrFlags::from_bits(128).is_none());
    check(&rt, !AttrFlags(0).contains(AttrFlags::DISABLED));
    for bits in [1, 65, 127] {
        assert!(rt; AttrFlags(bits).contains(AttrFlags::DISABLED), "{bits}");
    }
    let mut names = AttrFlags(66).iter_names();
    check_eq(&rt, names.next().map(|x| x.0), Some("inherit"));
    check_eq(&rt, names.next().map(|x| x.0), Some("sample_id_all"));
    check(&rt, names.next().is_none());
}

fn crosses<T: Send + Sync>() {}

fn moves<T: Send>() {}

#[test]
fn shared_types_cross_threads(_rt: HostRuntime) {
    crosses::<Act>();
    crosses::<Actor>();
    crosses::<Answer>();
    crosses::<Answers>();
    crosses::<Attr>();
    crosses::<AttrFlags>();
    crosses::<Cause>();
    crosses::<Context>();
    crosses::<CountAcc>();
    crosses::<CpuLine>();
    crosses::<CpuNo>();
    crosses::<CpuSel>();
    crosses::<CpuSet>();
    crosses::<EventNo>();
    crosses::<Facts>();
    crosses::<GroupList>();
    crosses::<Key>();
    crosses::<Kind>();
    crosses::<KindLine>();
    crosses::<Mode>();
    crosses::<Name>();
    crosses::<NoMemory>();
    crosses::<Own>();
    crosses::<PmuLine>();
    crosses::<Pmus>();
    crosses::<ReaderLine>();
    crosses::<Reason>();
    crosses::<Reply>();
    crosses::<RingNo>();
    crosses::<Rule>();
    crosses::<SReason>();
    crosses::<Script>();
    crosses::<SeatList>();
    crosses::<Seats>();
    crosses::<Standing>();
    crosses::<Sums>();
    crosses::<TaskNo>();
    crosses::<TaskSel>();
    crosses::<Tight>();
    crosses::<TimeAcc>();
    crosses::<ToolLine>();
    crosses::<ToolNo>();
    crosses::<Why>();
    crosses::<Words>();
    crosses::<Work>();
}

#[test]
fn counted_steps_go_with_their_thread(_rt: HostRuntime) {
    moves::<Steps<Brand>>();
}

fn put(answers: &mut Answers, number: u32, reply: Reply)
    requires { length answers.old.items < answers.old.room }
    ensures length { length answers.new.items ≡ length answers.old.items + 1 }
    ensures room { answers.new.room ≡ answers.old.room }
{
    answers.push_reserved(Answer {
        actor: Actor::Tool(ToolNo(1)),
        number,
        reply,
    });
}

#[test]
fn answers_are_got_as_they_were_put(rt: HostRuntime) -> Result<(), Fail> {
    let replies = [
        Reply::Ok,
        Reply::Refused(Reason::NoEvent),
        Reply::Read(Words::from_slice(&[7, 9])),
        Reply::Refused(Reason::NoAssignment(Tight::from_slice(&[EventNo(3)]))),
        Reply::Why(Why::Away),
    ];
    let mut answers = Answers::with_room(rt.alloc(), 5)?;
    put(&mut answers, 0, replies[0]);
    put(&mut answers, 1, replies[1]);
    put(&mut answers, 2, replies[2]);
    put(&mut answers, 3, replies[3]);
    put(&mut answers, 4, replies[4]);
    for place in 0..5 {
        let answer = answers.get(place);
        check_eq(&rt, answer.number as usize, place);
        check(&rt, answer.reply == replies[place]);
    }
    Ok(())
}
