//! Writing what a script declares.

ghost use Rattle.std.specs.Prelude.{◌≡◌, ◌<◌, ◌++◌, [], ◌∷◌, length, map, flat_map, codes, ◌≢◌, IfSome, Some, slice_get};
ghost use Rattle.script_spec.specs.Forms as form;
ghost use Rattle.script_spec.specs.Printing.{head_forms, pmu_forms, kind_form, task_form, ring_form, reader_form, line_text};
ghost use Rattle.perf_io.specs.Wrote.{Wrote};
ghost use Rattle.perf_base.specs.Scripts.{IsScript, IsCovered};

use crate::entries::Entry;
use crate::words::{Word, put_line};
use perf_base::{CpuNo, CpuSet, ReaderLine, RingNo, Script, TaskNo};
use perf_io::{Failed, Sink};

/// Writes the version.
fn put_version<K: Sink>(sink: &mut K, version: &[u8]) -> Result<(), Failed>
    ensures wrote { Wrote K.shows sink.old sink.new result ((codes "perf " ++ version.now) ++ 10 ∷ []) }
    ensures flushed { K.shows.flushed sink.new ≡ K.shows.flushed sink.old }
{
    put_line(sink, b"perf", &[Word::Plain(version)])
}

/// Writes the machine of a script with one PMU.
fn put_machine<K: Sink>(sink: &mut K, cpus: u8, counters: u8) -> Result<(), Failed>
    ensures wrote { Wrote K.shows sink.old sink.new result (line_text (form.Machine cpus counters)) }
    ensures flushed { K.shows.flushed sink.new ≡ K.shows.flushed sink.old }
{
    put_line(
        sink,
        b"machine",
        &[
            Word::Decimal(b"cpus=", u64::from(cpus)),
            Word::Decimal(b"counters=", u64::from(counters)),
        ],
    )
}

/// Writes the machine of a script with PMUs of its own.
fn put_machine_of_pmus<K: Sink>(sink: &mut K, cpus: u8) -> Result<(), Failed>
    ensures wrote { Wrote K.shows sink.old sink.new result (line_text (form.MachineOfPmus cpus)) }
    ensures flushed { K.shows.flushed sink.new ≡ K.shows.flushed sink.old }
{
    put_line(
        sink,
        b"machine",
        &[Word::Decimal(b"cpus=", u64::from(cpus))],
    )
}

/// The processors of a PMU. Each processor of the machine has to be of one.
fn cpus_of(script: &Script, pmu: u8) -> CpuSet
    requires covered { IsCovered script.now }
    requires within { pmu < length script.now.pmus }
    ensures { slice_get (map (λ p. p.cpus) script.now.pmus) pmu ≡ Some result }
{
    let mut set = CpuSet::new();
    for cpu in 0..script.cpus() {
        if script.pmu_of_cpu(CpuNo(cpu)) == pmu {
            set.insert(CpuNo(cpu));
        }
    }
    set
}

/// Writes a PMU.
fn put_pmu<K: Sink>(sink: &mut K, script: &Script, pmu: u8) -> Result<(), Failed>
    requires covered { IsCovered script.now }
    requires within { pmu < length script.now.pmus }
    ensures wrote { IfSome (slice_get script.now.pmus pmu) (λ p. Wrote K.shows sink.old sink.new result (line_text (form.Pmu pmu p.counters p.cpus.0))) }
    ensures flushed { K.shows.flushed sink.new ≡ K.shows.flushed sink.old }
{
    let counters = u64::from(script.counters(pmu));
    let cpus = u64::from(cpus_of(script, pmu).0);
    put_line(
        sink,
        b"pmu",
        &[
            Word::Decimal(b"", u64::from(pmu)),
            Word::Decimal(b"counters=", counters),
            Word::Hexadecimal(b"cpus=", cpus),
        ],
    )
}

fn put_pmus<K: Sink>(sink: &mut K, script: &Script) -> Result<(), Failed>
    requires { IsCovered script.now }
    ensures wrote { Wrote K.shows sink.old sink.new result (flat_map line_text (pmu_forms 0 script.now.pmus)) }
    ensures flushed { K.shows.flushed sink.new ≡ K.shows.flushed sink.old }
{
    for pmu in 0..script.pmus() {
        put_pmu(sink, script, pmu)?;
    }
    Ok(())
}

/// Writes the version and the machine of a script with one PMU, which is on all its processors.
fn put_one_pmu<K: Sink>(sink: &mut K, script: &Script) -> Result<(), Failed>
    requires { length script.now.pmus ≡ 1 }
    ensures wrote { Wrote K.shows sink.old sink.new result (flat_map line_text (head_forms script.now.cpus script.now.pmus)) }
    ensures flushed { K.shows.flushed sink.new ≡ K.shows.flushed sink.old }
{
    put_version(sink, b"1")?;
    put_machine(sink, script.cpus(), script.counters(0))
}

/// Writes the version, the machine and the PMUs of another script.
fn put_several_pmus<K: Sink>(sink: &mut K, script: &Script) -> Result<(), Failed>
    requires covered { IsCovered script.now }
    requires several { length script.now.pmus ≢ 1 }
    ensures wrote { Wrote K.shows sink.old sink.new result (flat_map line_text (head_forms script.now.cpus script.now.pmus)) }
    ensures flushed { K.shows.flushed sink.new ≡ K.shows.flushed sink.old }
{
    put_version(sink, b"2")?;
    put_machine_of_pmus(sink, script.cpus())?;
    put_pmus(sink, script)
}

/// Writes the version, the machine and its PMUs.
pub fn put_head<K: Sink>(sink: &mut K, script: &Script) -> Result<(), Failed>
    requires { IsCovered script.now }
    ensures wrote { Wrote K.shows sink.old sink.new result (flat_map line_text (head_forms script.now.cpus script.now.pmus)) }
    ensures flushed { K.shows.flushed sink.new ≡ K.shows.flushed sink.old }
{
    if script.pmus() == 1 {
        put_one_pmu(sink, script)
    } else {
        put_several_pmus(sink, script)
    }
}

/// Writes a kind.
fn put_kind<K: Sink>(sink: &mut K, script: &Script, kind: usize) -> Result<(), Failed>
    requires { kind < length script.now.kinds }
    ensures wrote { IfSome (slice_get script.now.kinds kind) (λ k. Wrote K.shows sink.old sink.new result (line_text (kind_form (length script.now.pmus) k))) }
    ensures flushed { K.shows.flushed sink.new ≡ K.shows.flushed sink.old }
{
    let name = script.name(kind);
    let mask = u64::from(script.mask(kind));
    let pmu = u64::from(script.pmu_of_kind(kind));
    if script.pmus() == 1 {
        put_line(
            sink,
            b"kind",
            &[Word::Named(b"", name), Word::Hexadecimal(b"mask=", mask)],
        )
    } else {
        put_line(
            sink,
            b"kind",
            &[
                Word::Named(b"", name),
                Word::Decimal(b"pmu=", pmu),
                Word::Hexadecimal(b"mask=", mask),
            ],
        )
    }
}

/// Writes all kinds.
pub fn put_kinds<K: Sink>(sink: &mut K, script: &Script) -> Result<(), Failed>
    ensures wrote { Wrote K.shows sink.old sink.new result (flat_map line_text (map (kind_form (length script.now.pmus)) script.now.kinds)) }
    ensures flushed { K.shows.flushed sink.new ≡ K.shows.flushed sink.old }
{
    for kind in 0..script.kinds() {
        put_kind(sink, script, kind)?;
    }
    Ok(())
}

impl Entry for TaskNo {
    ghost form = { λ script. task_form };

    fn put<K: Sink>(&self, sink: &mut K, _script: &Script) -> Result<(), Failed> {
        put_line(sink, b"task", &[Word::Decimal(b"", u64::from(self.0))])
    }
}

impl Entry for (RingNo, u32) {
    ghost form = { λ script. ring_form };

    fn put<K: Sink>(&self, sink: &mut K, _script: &Script) -> Result<(), Failed> {
        let (number, bytes) = self;
        put_line(
            sink,
            b"ring",
            &[
                Word::Decimal(b"", u64::from(number.0)),
                Word::Decimal(b"bytes=", u64::from(*bytes)),
            ],
        )
    }
}

impl Entry for ReaderLine {
    ghost form = { λ script. reader_form };

    fn put<K: Sink>(&self, sink: &mut K, _script: &Script) -> Result<(), Failed> {
        put_line(
            sink,
            b"reader",
            &[
                Word::Decimal(b"", u64::from(self.ring.0)),
                Word::Decimal(b"tries=", u64::from(self.tries)),
                Word::Decimal(b"batch=", u64::from(self.batch)),
            ],
        )
    }
}
