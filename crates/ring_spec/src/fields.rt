//! What a sample can say.

/// The fields of a sample, each as PERF_SAMPLE_ of perf_event_open(2) names it. `ip` is an address, `time` the clock
/// of the processor in units of work, `period` in occurrences.
#[derive(Clone, Copy, PartialEq, Eq, Debug)]
pub struct Fields {
    pub identifier: u64,
    pub ip: u64,
    pub pid: u32,
    pub tid: u32,
    pub time: u64,
    pub id: u64,
    pub stream_id: u64,
    pub cpu: u32,
    pub period: u64,
}
