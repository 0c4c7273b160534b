//! What the lines so far say.

ghost use Rattle.std.specs.Prelude.{◌≡◌};
ghost use Rattle.perf_base.specs.Scripts.{IsScript};
ghost use Rattle.line_forms.specs.Forms.{form_of};
ghost use Rattle.script_read.specs.State.{rank_of, part_of};

use line_forms::Form;
use perf_base::{CpuNo, CpuSet, Script, ToolNo};

/// The sections of a text, in their order.
#[derive(Clone, Copy, PartialEq, Eq, Debug)]
pub enum Section {
    Perf,
    Machine,
    Pmus,
    Kinds,
    Tasks,
    Rings,
    Processors,
    Tools,
    Readers,
    Order,
    End,
}

impl Section {
    /// The place of the section among all.
    pub fn rank(self) -> u8
        ensures { result ≡ rank_of self }
    {
        match self {
            Section::Perf => 0,
            Section::Machine => 1,
            Section::Pmus => 2,
            Section::Kinds => 3,
            Section::Tasks => 4,
            Section::Rings => 5,
            Section::Processors => 6,
            Section::Tools => 7,
            Section::Readers => 8,
            Section::Order => 9,
            Section::End => 10,
        }
    }
}

/// The section that a form belongs to.
pub fn section_of(form: &Form<'_>) -> Section
    ensures { result ≡ part_of (form_of form.now) }
{
    match form {
        Form::Perf(_) => Section::Perf,
        Form::Machine { .. } | Form::MachineOfPmus { .. } => Section::Machine,
        Form::Pmu { .. } => Section::Pmus,
        Form::Kind { .. } | Form::KindOfPmu { .. } => Section::Kinds,
        Form::Task { .. } => Section::Tasks,
        Form::Ring { .. } => Section::Rings,
        Form::Processor { .. } | Form::OnProcessor(_) => Section::Processors,
        Form::Tool { .. } | Form::OnTool(_) => Section::Tools,
        Form::Reader { .. } => Section::Readers,
        Form::Order(_) => Section::Order,
        Form::End => Section::End,
    }
}

/// What the lines so far say, from the machine on: the script, the section of the last line, the processor and
/// the tool whose header came last, and the processors that some PMU has.
#[derive(Drop)]
pub struct State {
    pub script: Script,
    pub section: Section,
    pub cpu: Option<CpuNo>,
    pub tool: Option<ToolNo>,
    pub named: CpuSet,
}

impl State {
    /// Nothing happens. The caller's proof learns that the script so far is one that can be built.
    pub fn use_invariant(&self)
        ensures { IsScript self.now.script }
    {
        self.script.use_invariant();
    }
}
