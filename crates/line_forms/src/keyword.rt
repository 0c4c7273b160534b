//! The first words of lines.

ghost use Rattle.std.specs.Prelude.{◌≡◌};
ghost use Rattle.line_forms.specs.Keyword as says;

use crate::leaves::same;

/// The first word of a line.
#[derive(Clone, Copy)]
pub enum Keyword {
    Perf,
    Machine,
    Pmu,
    Kind,
    Task,
    Ring,
    Processor,
    Switch,
    Work,
    Tick,
    Fork,
    Exit,
    Tool,
    Open,
    Enable,
    Disable,
    Reset,
    Period,
    Read,
    Map,
    Output,
    Close,
    Why,
    Seats,
    Reader,
    Order,
    End,
}

/// Each keyword, behind the word that it is written as. Those that most lines have come first.
const KEYWORDS: [(&[u8], Keyword); 27] = [
    (b"work", Keyword::Work),
    (b"read", Keyword::Read),
    (b"switch", Keyword::Switch),
    (b"tick", Keyword::Tick),
    (b"open", Keyword::Open),
    (b"enable", Keyword::Enable),
    (b"disable", Keyword::Disable),
    (b"reset", Keyword::Reset),
    (b"fork", Keyword::Fork),
    (b"exit", Keyword::Exit),
    (b"close", Keyword::Close),
    (b"order", Keyword::Order),
    (b"period", Keyword::Period),
    (b"tool", Keyword::Tool),
    (b"processor", Keyword::Processor),
    (b"task", Keyword::Task),
    (b"kind", Keyword::Kind),
    (b"ring", Keyword::Ring),
    (b"map", Keyword::Map),
    (b"output", Keyword::Output),
    (b"why", Keyword::Why),
    (b"seats", Keyword::Seats),
    (b"reader", Keyword::Reader),
    (b"pmu", Keyword::Pmu),
    (b"machine", Keyword::Machine),
    (b"perf", Keyword::Perf),
    (b"end", Keyword::End),
];

/// The keyword that a word is.
pub fn keyword_of(word: &[u8]) -> Option<Keyword>
    ensures { result ≡ says.keyword_of word.now }
{
    for (text, keyword) in &KEYWORDS {
        if same(word, text) {
            return Some(*keyword);
        }
    }
    None
}
