//! The checks of an attribute by itself, before anything that is open is looked at. Its definition is the
//! first fault of an attribute, in stage_spec. It serves the call that opens an event.
#![tactic(auto)]

ghost use Rattle.std.specs.Prelude.{◌≡◌, OnOk, IfErr};
ghost use Rattle.stage_spec.specs.Checks.{first_fault, has_high_period, has_no_place, has_other_bits, has_soft_period};

use perf_base::{Attr, CpuSel, Kind, Reason, TaskSel};

/// The bits of PERF_SAMPLE_ that an event may ask for: IP, TID, TIME, ID, CPU, PERIOD, STREAM_ID and
/// IDENTIFIER.
pub const SAMPLE_BITS: u64 = 0x103c7;

/// The bits of PERF_FORMAT_ that an event may ask for: both times, ID, GROUP and LOST.
pub const FORMAT_BITS: u64 = 0x1f;

const HIGHEST_BIT: u64 = 1 << 63;

/// Whether an attribute may be opened at all. The error is the first of these that holds: `BadPeriod` for
/// a period with bit 63, `BadSampleBits` and `BadFormatBits` for a bit that is not known, `NoPlace` for
/// all tasks on any processor, `SoftPeriod` for a software kind with a period.
pub fn check_attr(attr: &Attr) -> Result<(), Reason>
    ensures ok { OnOk result (first_fault attr.now ≡ None) }
    ensures err { IfErr result (λ reason. first_fault attr.now ≡ Some reason) }
{
    if is_period_high(attr) {
        Err(Reason::BadPeriod)
    } else if is_beyond(attr.sample, SAMPLE_BITS) {
        Err(Reason::BadSampleBits)
    } else if is_beyond(attr.format, FORMAT_BITS) {
        Err(Reason::BadFormatBits)
    } else if is_placeless(attr) {
        Err(Reason::NoPlace)
    } else if is_soft_sampler(attr) {
        Err(Reason::SoftPeriod)
    } else {
        Ok(())
    }
}

fn is_period_high(attr: &Attr) -> bool
    ensures { result ≡ has_high_period attr.now }
{
    attr.period & HIGHEST_BIT != 0
}

fn is_beyond(bits: u64, known: u64) -> bool
    ensures { result ≡ has_other_bits known bits }
{
    bits & !known != 0
}

fn is_placeless(attr: &Attr) -> bool
    ensures { result ≡ has_no_place attr.now }
{
    match (attr.task, attr.cpu) {
        (TaskSel::All, CpuSel::Any) => true,
        _ => false,
    }
}

fn is_soft_sampler(attr: &Attr) -> bool
    ensures { result ≡ has_soft_period attr.now }
{
    match attr.kind {
        Kind::Hard(_) => false,
        _ => attr.period != 0,
    }
}
