//! The form of a line, by its first word.

ghost use Rattle.std.specs.Prelude.{◌≡◌, IfSome, None};
ghost use Rattle.std.specs.Option.{option_map};
ghost use Rattle.script_spec.specs.Lines.{words_of};
ghost use Rattle.script_spec.specs.Forms as form;
ghost use Rattle.script_spec.specs.Forms.{IsOfForm};
ghost use Rattle.line_forms.specs.Words.{left};
ghost use Rattle.line_forms.specs.Acts.{order_at};
ghost use Rattle.line_forms.specs.Reading.{body_at, form_at};
ghost use Rattle.line_forms.specs.Forms.{form_of, version_of, cpu_form_of, tool_form_of};

use crate::acts::order_acts;
use crate::cpu_forms::{exit, fork, switch, tick, work};
use crate::declarations::{
    end, kind, kind_of_pmu, machine, machine_of_pmus, perf, pmu, processor, reader, ring, task,
    tool,
};
use crate::forms::{CpuForm, Form, ToolForm, Version};
use crate::keyword::{Keyword, keyword_of};
use crate::tool_forms::{
    close, disable, enable, map, open, output, period, read, reset, seats, why,
};
use crate::words::Words;

/// A form under a processor, if there is one.
fn on_processor(found: Option<CpuForm<'_>>) -> Option<Form<'_>>
    ensures { option_map form_of result ≡ option_map form.OnProcessor (option_map cpu_form_of found.entry) }
{
    match found {
        Some(line) => Some(Form::OnProcessor(line)),
        None => None,
    }
}

/// A form under a tool, if there is one.
fn on_tool(found: Option<ToolForm<'_>>) -> Option<Form<'_>>
    ensures { option_map form_of result ≡ option_map form.OnTool (option_map tool_form_of found.entry) }
{
    match found {
        Some(line) => Some(Form::OnTool(line)),
        None => None,
    }
}

/// The form of a line of a version, by its first word and those behind it.
#[tactic(auto, unfolding(crate::specs::Reading::body_at))]
fn body(version: Version, keyword: Keyword, words: Words<'_>) -> Option<Form<'_>>
    ensures { option_map form_of result ≡ body_at (version_of version) keyword (left words.entry) }
{
    match (version, keyword) {
        (_, Keyword::Perf) => perf(version, words),
        (Version::One, Keyword::Machine) => machine(words),
        (Version::Two, Keyword::Machine) => machine_of_pmus(words),
        (Version::One, Keyword::Pmu) => None,
        (Version::Two, Keyword::Pmu) => pmu(words),
        (Version::One, Keyword::Kind) => kind(words),
        (Version::Two, Keyword::Kind) => kind_of_pmu(words),
        (_, Keyword::Task) => task(words),
        (_, Keyword::Ring) => ring(words),
        (_, Keyword::Processor) => processor(words),
        (_, Keyword::Switch) => on_processor(switch(words)),
        (_, Keyword::Work) => on_processor(work(words)),
        (_, Keyword::Tick) => on_processor(tick(words)),
        (_, Keyword::Fork) => on_processor(fork(words)),
        (_, Keyword::Exit) => on_processor(exit(words)),
        (_, Keyword::Tool) => tool(words),
        (_, Keyword::Open) => on_tool(open(words)),
        (_, Keyword::Enable) => on_tool(enable(words)),
        (_, Keyword::Disable) => on_tool(disable(words)),
        (_, Keyword::Reset) => on_tool(reset(words)),
        (_, Keyword::Period) => on_tool(period(words)),
        (_, Keyword::Read) => on_tool(read(words)),
        (_, Keyword::Map) => on_tool(map(words)),
        (_, Keyword::Output) => on_tool(output(words)),
        (_, Keyword::Close) => on_tool(close(words)),
        (_, Keyword::Why) => on_tool(why(words)),
        (_, Keyword::Seats) => on_tool(seats(words)),
        (_, Keyword::Reader) => reader(words),
        (_, Keyword::Order) => order(words),
        (_, Keyword::End) => end(words),
    }
}

/// An order of the acts that the words spell.
fn order(words: Words<'_>) -> Option<Form<'_>>
    ensures { option_map form_of result ≡ order_at (left words.entry) }
{
    match order_acts(words) {
        Some(acts) => Some(Form::Order(acts)),
        None => None,
    }
}

/// The form of a line by its words.
#[tactic(auto, unfolding(crate::specs::Reading::form_at))]
fn form_of_words(version: Version, words: Words<'_>) -> Option<Form<'_>>
    ensures { option_map form_of result ≡ form_at (version_of version) (left words.entry) }
{
    let (word, words) = words.next()?;
    let keyword = keyword_of(word)?;
    body(version, keyword, words)
}

/// The form of a line, in a text of a version. None exactly where it is of none; a line is of at most one. It takes
/// no memory: occurrences, acts and bytes stay in the line.
pub fn read_form(version: Version, line: &[u8]) -> Option<Form<'_>>
    ensures ok { IfSome result (λ f. IsOfForm (version_of version) (words_of line.now) (form_of f)) }
    ensures one { IfSome result (λ f. (g : form.Form) → IsOfForm (version_of version) (words_of line.now) g → g ≡ form_of f) }
    ensures none { result ≡ None → (g : form.Form) → IsOfForm (version_of version) (words_of line.now) g → ⊥ }
{
    form_of_words(version, Words::of(line, b' '))
}
