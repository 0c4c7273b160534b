//! The lines of processors and tools: a form's numbers first, then the bytes of an attribute, then names.

ghost use Rattle.std.specs.Prelude.{◌≡◌, ◌++◌, ◌∷◌, [], List, IfOk, IfErr, All, MatchBool};
ghost use Rattle.perf_base.specs.declared.lines.ToolLine.TheVariants as tool_line;
ghost use Rattle.perf_base.specs.declared.reasons.SReason.TheVariants.{Range};
ghost use Rattle.perf_base.specs.Scripts.{IsScript};
ghost use Rattle.script_spec.specs.Forms as text;
ghost use Rattle.script_spec.specs.Forms.{IsWorking, IsAsked, IsCpuSpelling, IsToolSpelling};
ghost use Rattle.script_spec.specs.Faults.{IsAmount, IsSlotNumber};
ghost use Rattle.script_spec.specs.Meaning as says;
ghost use Rattle.line_forms.specs.Forms.{working_of, cpu_form_of, opening_of, asked_of, tool_form_of};
ghost use Rattle.script_read.specs.Names.{AreKindsIn};
ghost use Rattle.script_read.specs.Lines.{AreCounted, IsNamedOnce, RefusesHits, MakesCpuLine, RefusesCpuForm, MakesToolLine, RefusesToolForm};

use crate::names::{declared_ring, kind_named, kind_of_raw, number_of, raw_of};
use crate::numbers::{
    Place, amount, cpu, opening_place, period, size, slot, switched, task, wide, word,
};
use line_forms::{Asked, AttrBytes, CpuForm, Hits, Opening, ToolForm, Working};
use perf_base::{Attr, AttrFlags, CpuLine, EventNo, Name, SReason, Script, ToolLine, Work};

/// Adds how often a kind occurs, and that it was named. False where the name is not that of a declared kind, or was
/// named before.
fn count(
    script: &Script,
    times: &mut [u64; 16],
    named: &mut [bool; 16],
    name: &[u8],
    amount: u64,
) -> bool
    requires { IsScript script.now }
    ensures { (hits : List text.Hit) → AreCounted script.now.kinds hits times.old named.old
        → MatchBool result
        (AreCounted script.now.kinds (hits ++ record { name = name.now; times = amount } ∷ []) times.new named.new)
        (IsNamedOnce script.now.kinds hits name.now → ⊥) }
{
    let Some(kind) = number_of(script, name) else {
        return false;
    };
    if named[kind] {
        return false;
    }
    times[kind] = amount;
    named[kind] = true;
    true
}

/// How often each kind occurs, by its number, or the first reason for which the occurrences of a work line are refused:
/// a number is too large, or else a name is unknown or stands there twice.
fn occurrences(script: &Script, hits: Hits<'_>) -> Result<[u64; 16], SReason>
    requires { IsScript script.now }
    ensures ok { IfOk result (λ o. All (λ h. IsAmount h.times) hits.entry × AreKindsIn script.now.kinds hits.entry × (o ≡ says.occurrences script.now.kinds hits.entry)) }
    ensures bad { IfErr result (RefusesHits script.now.kinds hits.entry) }
{
    let mut times = [0; 16];
    let mut named = [false; 16];
    let mut are_kinds = true;
    let mut rest = hits;
    while let Some((hit, more)) = rest.next() {
        let Some(amount) = amount(hit.times) else {
            return Err(SReason::Range);
        };
        are_kinds = are_kinds && count(script, &mut times, &mut named, hit.name, amount);
        rest = more;
    }
    if are_kinds {
        Ok(times)
    } else {
        Err(SReason::Name)
    }
}

fn work(script: &Script, working: &Working<'_>) -> Result<CpuLine, SReason>
    requires script { IsScript script.now }
    requires spelling { IsWorking (working_of working.now) }
    ensures ok { IfOk result (MakesCpuLine script.now.kinds (text.Work (working_of working.now))) }
    ensures bad { IfErr result (RefusesCpuForm script.now.kinds (text.Work (working_of working.now))) }
{
    let length = amount(working.length).ok_or(SReason::Range)?;
    match occurrences(script, working.hits.again()) {
        Err(reason) => Err(reason),
        Ok(hits) => Ok(CpuLine::Work(Work {
            length,
            mode: working.mode,
            ip: word(working.ip),
            hits,
        })),
    }
}

/// The line of a processor that a form says, or the first reason for which its numbers or names are refused.
pub fn cpu_line(script: &Script, form: &CpuForm<'_>) -> Result<CpuLine, SReason>
    requires script { IsScript script.now }
    requires spelling { IsCpuSpelling (cpu_form_of form.now) }
    ensures ok { IfOk result (MakesCpuLine script.now.kinds (cpu_form_of form.now)) }
    ensures bad { IfErr result (RefusesCpuForm script.now.kinds (cpu_form_of form.now)) }
{
    match form {
        CpuForm::Switch(next) => Ok(CpuLine::Switch(switched(*next).ok_or(SReason::Range)?)),
        CpuForm::Work(working) => work(script, working),
        CpuForm::Tick => Ok(CpuLine::Tick),
        CpuForm::Fork(child) => Ok(CpuLine::Fork(task(*child).ok_or(SReason::Range)?)),
        CpuForm::Exit => Ok(CpuLine::Exit),
    }
}

/// An open by a kind's name.
fn open_kind(
    script: &Script,
    opening: &Opening,
    name: Name,
    asked: &Asked,
) -> Result<ToolLine, SReason>
    requires script { IsScript script.now }
    requires spelling { IsAsked (asked_of asked.now) }
    ensures ok { IfOk result (MakesToolLine script.now (text.OpenKind (opening_of opening.now) name (asked_of asked.now))) }
    ensures bad { IfErr result (RefusesToolForm script.now (text.OpenKind (opening_of opening.now) name (asked_of asked.now))) }
{
    let place = opening_place(script.cpus(), opening).ok_or(SReason::Range)?;
    let period = period(asked.period).ok_or(SReason::Range)?;
    let kind = kind_named(script, name).ok_or(SReason::Name)?;
    Ok(opened(
        place,
        Attr {
            kind,
            task: place.task,
            cpu: place.cpu,
            period,
            sample: word(asked.sample),
            format: word(asked.format),
            flags: AttrFlags(word(asked.flags)),
        },
    ))
}

/// An open of an attribute there.
fn opened(place: Place, attr: Attr) -> ToolLine
    ensures { result ≡ tool_line.Open place.event attr place.leader }
{
    ToolLine::Open {
        slot: place.event,
        attr,
        leader: place.leader,
    }
}

/// An open by the bytes of an attribute.
fn open_attr(script: &Script, opening: &Opening, bytes: &AttrBytes<'_>) -> Result<ToolLine, SReason>
    requires script { IsScript script.now }
    ensures ok { IfOk result (MakesToolLine script.now (text.OpenAttr (opening_of opening.now) bytes.now)) }
    ensures bad { IfErr result (RefusesToolForm script.now (text.OpenAttr (opening_of opening.now) bytes.now)) }
{
    let place = opening_place(script.cpus(), opening).ok_or(SReason::Range)?;
    let raw = raw_of(bytes).ok_or(SReason::Attr)?;
    let kind = kind_of_raw(script, &raw).ok_or(SReason::Name)?;
    Ok(opened(
        place,
        Attr {
            kind,
            task: place.task,
            cpu: place.cpu,
            period: raw.period,
            sample: raw.sample,
            format: raw.format,
            flags: raw.flags,
        },
    ))
}

fn map_line(script: &Script, event: u128, ring: u128) -> Result<ToolLine, SReason>
    ensures ok { IfOk result (MakesToolLine script.now (text.Map event ring)) }
    ensures bad { IfErr result (RefusesToolForm script.now (text.Map event ring)) }
{
    let event = slot(event).ok_or(SReason::Range)?;
    let ring = wide(ring).ok_or(SReason::Range)?;
    let ring = declared_ring(script.rings(), ring).ok_or(SReason::Name)?;
    Ok(ToolLine::Map { event, ring })
}

fn event(n: u128) -> Result<EventNo, SReason>
    ensures ok { IfOk result (λ e. IsSlotNumber n × (e ≡ says.slot n)) }
    ensures bad { IfErr result (λ r. (r ≡ Range) × (IsSlotNumber n → ⊥)) }
{
    slot(n).ok_or(SReason::Range)
}

/// The line of a tool that a form says, or the first reason for which its numbers, bytes or names are refused.
pub fn tool_line(script: &Script, form: &ToolForm<'_>) -> Result<ToolLine, SReason>
    requires script { IsScript script.now }
    requires spelling { IsToolSpelling (tool_form_of form.now) }
    ensures ok { IfOk result (MakesToolLine script.now (tool_form_of form.now)) }
    ensures bad { IfErr result (RefusesToolForm script.now (tool_form_of form.now)) }
{
    match form {
        ToolForm::OpenKind { place, name, asked } => open_kind(script, place, *name, asked),
        ToolForm::OpenAttr { place, bytes } => open_attr(script, place, bytes),
        ToolForm::Enable { slot, group } => Ok(ToolLine::Enable {
            event: event(*slot)?,
            group: *group,
        }),
        ToolForm::Disable { slot, group } => Ok(ToolLine::Disable {
            event: event(*slot)?,
            group: *group,
        }),
        ToolForm::Reset { slot, group } => Ok(ToolLine::Reset {
            event: event(*slot)?,
            group: *group,
        }),
        ToolForm::Period { slot, period } => Ok(ToolLine::Period {
            event: event(*slot)?,
            period: wide(*period).ok_or(SReason::Range)?,
        }),
        ToolForm::Read { slot, size: bytes } => Ok(ToolLine::Read {
            event: event(*slot)?,
            size: size(*bytes).ok_or(SReason::Range)?,
        }),
        ToolForm::Map { slot, ring } => map_line(script, *slot, *ring),
        ToolForm::Output { slot, target } => Ok(ToolLine::Output {
            event: event(*slot)?,
            target: event(*target)?,
        }),
        ToolForm::Close { slot } => Ok(ToolLine::Close {
            event: event(*slot)?,
        }),
        ToolForm::Why { slot } => Ok(ToolLine::Why {
            event: event(*slot)?,
        }),
        ToolForm::Seats { cpu: n } => Ok(ToolLine::Seats {
            cpu: cpu(script.cpus(), *n).ok_or(SReason::Range)?,
        }),
    }
}
