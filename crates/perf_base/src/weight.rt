//! The weight of a script: how many samples it may bring.

ghost use Rattle.std.specs.Prelude.{◌≡◌, ℕ, ◌+◌, ◌*◌, ◌^◌, ◌<◌, ◌≤◌, length, All, sum_by, count_by};
ghost use Rattle.perf_base.specs.Weight as says;
ghost use Rattle.perf_base.specs.Weight.{opens_sampling, least_by, line_shares, least_period, sampling_opens, shares_of};
ghost use Rattle.perf_base.specs.Light.{IsLight};

use crate::lines::{CpuLine, ToolLine};
use crate::numbers::{CpuNo, ToolNo};
use crate::script::Script;

/// The period that a line gives, 0 for a line that gives none.
fn period_of(line: &ToolLine) -> u64
    ensures { result ≡ says.period_of line.now }
{
    match line {
        ToolLine::Open { attr, .. } => attr.period,
        ToolLine::Period { period, .. } => *period,
        _ => 0,
    }
}

/// Whether a line opens an event with a period.
fn is_sampling_open(line: &ToolLine) -> bool
    ensures { result ≡ opens_sampling line.now }
{
    match line {
        ToolLine::Open { attr, .. } => 0 < attr.period,
        _ => false,
    }
}

/// The lesser of two periods, where 0 is none.
fn lesser(a: u64, b: u64) -> u64
    ensures { result ≡ says.lesser a b }
{
    if a == 0 {
        b
    } else if b == 0 {
        a
    } else {
        a.min(b)
    }
}

/// The least period that a tool's lines give.
fn least_in(lines: &[ToolLine]) -> u64
    ensures { result ≡ least_by says.period_of lines.now }
{
    let mut least = 0;
    for line in lines {
        least = lesser(least, period_of(line));
    }
    least
}

/// How many of a tool's lines open an event with a period.
fn opens_in(lines: &[ToolLine]) -> usize
    ensures { result ≡ count_by opens_sampling lines.now }
{
    lines.iter().filter(|line| is_sampling_open(line)).count()
}

/// How often a stretch of work fills a period, over all kinds.
fn shares(period: u64, hits: &[u64]) -> u64
    requires period { 0 < period }
    requires kinds { length hits.now ≤ 16 }
    requires few { All (λ n. n ≤ 1000000000) hits.now }
    ensures sum { result ≡ sum_by (says.shares period) hits.now }
    ensures few { result ≤ 16000000000 }
{
    let mut sum = 0;
    for hits in hits {
        sum += hits.div_ceil(period);
    }
    sum
}

/// The same for a line.
fn line_shares_of(period: u64, line: &CpuLine) -> u64
    requires period { 0 < period }
    requires light { IsLight line.now }
    ensures sum { result ≡ line_shares period line.now }
    ensures few { result ≤ 16000000000 }
{
    match line {
        CpuLine::Work(work) => shares(period, &work.hits),
        _ => 0,
    }
}

/// The same for a processor's lines.
fn shares_in(period: u64, lines: &[CpuLine]) -> u64
    requires period { 0 < period }
    requires light { All IsLight lines.now }
    requires few { length lines.now ≤ 16384 }
    ensures sum { result ≡ sum_by (line_shares period) lines.now }
    ensures few { result ≤ length lines.now * 16000000000 }
{
    let mut sum = 0;
    for line in lines {
        sum += line_shares_of(period, line);
    }
    sum
}

impl Script {
    /// The least period that any line gives, 0 where none does.
    fn least_period(&self) -> u64
        ensures { result ≡ least_period self.now }
    {
        let mut least = 0;
        for tool in 0..4 {
            least = lesser(least, least_in(self.tool_lines(ToolNo(tool))));
        }
        least
    }

    /// How many lines open an event with a period.
    fn sampling_opens(&self) -> usize
        ensures sum { result ≡ sampling_opens self.now }
        ensures few { result ≤ 16384 }
    {
        let mut opens = 0;
        for tool in 0..4 {
            opens += opens_in(self.tool_lines(ToolNo(tool)));
        }
        opens
    }

    /// How often all work fills a period.
    fn shares_of(&self, period: u64) -> u64
        requires { 0 < period }
        ensures sum { result ≡ shares_of self.now period }
        ensures few { result ≤ 16384 * 16000000000 }
    {
        let mut sum = 0;
        for cpu in 0..8 {
            sum += shares_in(period, self.cpu_lines(CpuNo(cpu)));
        }
        sum
    }

    /// The weight: how many lines open an event with a period, times how often all work fills the least
    /// period that any line gives. No run of the script brings more samples.
    pub fn weight(&self) -> u64
        ensures { result ≡ says.weight self.now }
    {
        let least = self.least_period();
        if least == 0 {
            return 0;
        }
        self.sampling_opens() as u64 * self.shares_of(least)
    }
}
