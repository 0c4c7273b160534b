//! An attribute as its bytes say it.

use perf_base::AttrFlags;

/// What the bytes of an attribute say. `class` is the field `type` of perf_event_attr (0 hardware, 1
/// software, 4 raw), `period` is in occurrences, and `sample` and `format` have the bits of PERF_SAMPLE_
/// and PERF_FORMAT_.
#[derive(Clone, Copy, PartialEq, Eq, Debug)]
pub struct RawAttr {
    pub class: u32,
    pub config: u64,
    pub period: u64,
    pub sample: u64,
    pub format: u64,
    pub flags: AttrFlags,
}
