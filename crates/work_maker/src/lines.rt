//! The lines of the script of N rounds.

ghost use Rattle.std.specs.Prelude.{◌≡◌, ◌<◌, ◌≤◌};
ghost use Rattle.work_maker.specs.Rounds as says;

use perf_base::{
    Attr, AttrFlags, CpuLine, CpuNo, CpuSel, EventNo, Kind, Mode, RingNo, TaskNo, TaskSel,
    ToolLine, Work,
};

/// How often each kind occurs while a processor works in a round.
fn hits(cpu: u8, round: u32) -> [u64; 16]
    requires cpu { cpu < 4 }
    requires round { round < 1000 }
    ensures { result ≡ says.made_hits cpu round }
{
    let cycles = 2000 + 500 * ((cpu as u64 + round as u64) % 8);
    [cycles, 3000, 700, 40, 0, 0, 0, 0, 0, 0, 0, 0, 0, 0, 0, 0]
}

/// What a processor does in a round.
pub fn round_lines(cpu: u8, round: u32) -> [CpuLine; 4]
    requires cpu { cpu < 4 }
    requires round { round < 1000 }
    ensures { result ≡ says.round_lines cpu round }
{
    let task = (cpu as u32 + round) % 4;
    [
        CpuLine::Switch(Some(TaskNo(task as u8))),
        CpuLine::Work(Work {
            length: 1000,
            mode: Mode::User,
            ip: 4096 + round as u64,
            hits: hits(cpu, round),
        }),
        CpuLine::Tick,
        CpuLine::Switch(None),
    ]
}

/// Opens an event that samples the cycles of all tasks on a processor, and maps its ring.
pub fn sampling_lines(cpu: u8) -> [ToolLine; 2]
    requires { cpu < 4 }
    ensures { result ≡ says.sampling_lines cpu }
{
    let event = EventNo(cpu as u16);
    let attr = Attr {
        kind: Kind::Hard(0),
        task: TaskSel::All,
        cpu: CpuSel::One(CpuNo(cpu)),
        period: 10000,
        sample: 7,
        format: 19,
        flags: AttrFlags(0),
    };
    [
        ToolLine::Open {
            slot: event,
            attr,
            leader: None,
        },
        ToolLine::Map {
            event,
            ring: RingNo(cpu),
        },
    ]
}

/// What an event asks for that counts a kind of a task on any processor.
fn counted(kind: u8, task: u8) -> Attr
    requires { task < 4 }
    ensures { result ≡ says.counted kind task }
{
    Attr {
        kind: Kind::Hard(kind),
        task: TaskSel::One(TaskNo(task)),
        cpu: CpuSel::Any,
        period: 0,
        sample: 0,
        format: 3,
        flags: AttrFlags(0),
    }
}

/// Opens the events of a task.
pub fn counting_lines(task: u8) -> [ToolLine; 3]
    requires { task < 4 }
    ensures { result ≡ says.counting_lines task }
{
    let instructions = EventNo(4 + task as u16);
    [
        ToolLine::Open {
            slot: instructions,
            attr: counted(1, task),
            leader: None,
        },
        ToolLine::Open {
            slot: EventNo(8 + task as u16),
            attr: counted(2, task),
            leader: Some(instructions),
        },
        ToolLine::Open {
            slot: EventNo(12 + task as u16),
            attr: counted(3, task),
            leader: None,
        },
    ]
}
