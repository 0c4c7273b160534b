//! Writing tools and their lines.

ghost use Rattle.std.specs.Prelude.{◌≡◌, ◌<◌, ◌≤◌, ◌++◌, [], ◌∷◌, length, map, flat_map, codes, decimal, All, option_map};
ghost use Rattle.script_spec.specs.Forms.{number_or, word_if, group_words};
ghost use Rattle.script_spec.specs.Printing.{kind_name, task_number, cpu_number, tool_form, tool_forms, all_tool_forms, line_text};
ghost use Rattle.perf_io.specs.Wrote.{Wrote};
ghost use Rattle.perf_base.specs.Scripts.{lines_of_tool, IsToolLine, IsKind};
ghost use Rattle.script_print.specs.Words.{word_texts};
ghost use Rattle.perf_base.specs.declared.lines.ToolLine.TheVariants as tool_line;

use crate::entries::{Entry, put_section};
use crate::words::{Word, put_line};
use perf_base::{Attr, CpuSel, EventNo, Kind, Name, Script, TaskSel, ToolLine, ToolNo};
use perf_io::{Failed, Sink};

/// The word of a number.
fn number(n: u64) -> Word<'static>
    ensures { word_texts result ≡ decimal n ∷ [] }
{
    Word::Decimal(b"", n)
}

/// The word of an event's slot.
fn event_word(event: EventNo) -> Word<'static>
    ensures { word_texts result ≡ decimal event.0 ∷ [] }
{
    number(u64::from(event.0))
}

/// The word of an event's kind.
fn kind_word(script: &Script, kind: Kind) -> Word<'static>
    requires { IsKind (length script.now.kinds) kind }
    ensures { word_texts result ≡ (codes "kind=" ++ kind_name script.now.kinds kind) ∷ [] }
{
    match kind {
        Kind::Hard(n) => Word::Named(b"kind=", script.name(usize::from(n))),
        _ => Word::Named(b"kind=", Name::from_slice(kind.software_name())),
    }
}

/// The word of the task that an event counts.
fn task_word(task: TaskSel) -> Word<'static>
    ensures { word_texts result ≡ (codes "task=" ++ number_or (codes "all") (task_number task)) ∷ [] }
{
    match task {
        TaskSel::All => Word::Plain(b"task=all"),
        TaskSel::One(task) => Word::Decimal(b"task=", u64::from(task.0)),
    }
}

/// The word of the processor on which an event counts.
fn cpu_word(cpu: CpuSel) -> Word<'static>
    ensures { word_texts result ≡ (codes "cpu=" ++ number_or (codes "any") (cpu_number cpu)) ∷ [] }
{
    match cpu {
        CpuSel::Any => Word::Plain(b"cpu=any"),
        CpuSel::One(cpu) => Word::Decimal(b"cpu=", u64::from(cpu.0)),
    }
}

/// The word of an event's leader, missing where it has none.
fn leader_word(leader: Option<EventNo>) -> Word<'static>
    ensures { word_texts result ≡ word_if (option_map (λ e. e.0) leader) (λ n. codes "leader=" ++ decimal n) }
{
    match leader {
        None => Word::Missing,
        Some(event) => Word::Decimal(b"leader=", u64::from(event.0)),
    }
}

/// The word of a read's size, missing where none is given.
fn size_word(size: Option<u64>) -> Word<'static>
    ensures { word_texts result ≡ word_if size (λ n. codes "size=" ++ decimal n) }
{
    match size {
        None => Word::Missing,
        Some(n) => Word::Decimal(b"size=", n),
    }
}

/// The word of a whole group.
fn group_word(group: bool) -> Word<'static>
    ensures { word_texts result ≡ group_words group }
{
    if group {
        Word::Plain(b"group")
    } else {
        Word::Missing
    }
}

/// Writes the opening of an event.
fn put_open<K: Sink>(
    sink: &mut K,
    script: &Script,
    slot: EventNo,
    attr: &Attr,
    leader: Option<EventNo>,
) -> Result<(), Failed>
    requires { IsKind (length script.now.kinds) attr.now.kind }
    ensures wrote { Wrote K.shows sink.old sink.new result (line_text (tool_form script.now.kinds (tool_line.Open slot attr.now leader))) }
    ensures flushed { K.shows.flushed sink.new ≡ K.shows.flushed sink.old }
{
    put_line(
        sink,
        b"open",
        &[
            event_word(slot),
            kind_word(script, attr.kind),
            task_word(attr.task),
            cpu_word(attr.cpu),
            leader_word(leader),
            Word::decimal_if(b"period=", attr.period),
            Word::hexadecimal_if(b"sample=", attr.sample),
            Word::hexadecimal_if(b"format=", attr.format),
            Word::flags_if(attr.flags),
        ],
    )
}

impl Entry for ToolLine {
    ghost fits = { λ script. IsToolLine script.cpus (length script.kinds) script.rings };

    ghost form = { λ script. tool_form script.kinds };

    fn put<K: Sink>(&self, sink: &mut K, script: &Script) -> Result<(), Failed> {
        match self {
            ToolLine::Open { slot, attr, leader } => put_open(sink, script, *slot, attr, *leader),
            ToolLine::Enable { event, group } => put_line(
                sink,
                b"enable",
                &[event_word(*event), group_word(*group)],
            ),
            ToolLine::Disable { event, group } => put_line(
                sink,
                b"disable",
                &[event_word(*event), group_word(*group)],
            ),
            ToolLine::Reset { event, group } => put_line(
                sink,
                b"reset",
                &[event_word(*event), group_word(*group)],
            ),
            ToolLine::Period { event, period } => put_line(
                sink,
                b"period",
                &[event_word(*event), number(*period)],
            ),
            ToolLine::Read { event, size } => put_line(
                sink,
                b"read",
                &[event_word(*event), size_word(*size)],
            ),
            ToolLine::Map { event, ring } => put_line(
                sink,
                b"map",
                &[event_word(*event), number(u64::from(ring.0))],
            ),
            ToolLine::Output { event, target } => put_line(
                sink,
                b"output",
                &[event_word(*event), event_word(*target)],
            ),
            ToolLine::Close { event } => put_line(sink, b"close", &[event_word(*event)]),
            ToolLine::Why { event } => put_line(sink, b"why", &[event_word(*event)]),
            ToolLine::Seats { cpu } => put_line(sink, b"seats", &[number(u64::from(cpu.0))]),
        }
    }
}

/// Writes all tools that have lines.
pub fn put_tools<K: Sink>(sink: &mut K, script: &Script) -> Result<(), Failed>
    ensures wrote { Wrote K.shows sink.old sink.new result (flat_map line_text (all_tool_forms script.now)) }
    ensures flushed { K.shows.flushed sink.new ≡ K.shows.flushed sink.old }
{
    for tool in 0..4 {
        put_section(sink, script, b"tool", tool, script.tool_lines(ToolNo(tool)))?;
    }
    Ok(())
}
