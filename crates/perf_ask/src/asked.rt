//! What words ask for.

ghost use Rattle.std.specs.Prelude.{◌≡◌, ◌≤◌, ◌↔◌, ℕ, IsTrue, MatchOption, [], ◌∷◌, codes, decimal, map, string_bytes};
ghost use Rattle.perf_ask.specs.Asking.{AreKnown, Asks, IsWatching, OneAskedLaw};

use itoa::Buffer;
use line_forms::{MOST_BYTES, read_bytes};
use perf_base::{EventNo, ShortList};
use std::marker::Model;

/// The fewest and the most rounds that a made script may have.
const LEAST_ROUNDS: u32 = 1;

const MOST_ROUNDS: u32 = 1000;

/// How many rounds a made script has: from 1 to 1000. Contracts see the number.
#[derive(Drop)]
pub struct Rounds {
    number: u32,
}

impl Model for Rounds {
    ghost use Rattle.std.specs.Prelude.{◌≤◌, ℕ};

    ghost Value = { ℕ };

    ghost view = { λ r. r.number };

    ghost invariant = { λ r. (1 ≤ r.number) × (r.number ≤ 1000) };
}

impl Rounds {
    /// So many rounds.
    fn new(number: u32) -> Rounds
        requires { (1 ≤ number) × (number ≤ 1000) }
        ensures { result ≡ number }
    {
        Rounds { number }
    }

    /// The number.
    pub fn number(&self) -> u32
        ensures number { result ≡ self.now }
        ensures few { (1 ≤ result) × (result ≤ 1000) }
    {
        self.number
    }
}

/// The most looks of a watcher, and the greatest slot of an event.
const MOST_LOOKS: u32 = 65536;

const LAST_SLOT: u32 = 255;

/// What a watcher looks at, and how often: the slot of an event, 0 to 255, and 1 to 65536 looks. Contracts see both.
#[derive(Drop)]
pub struct Watching {
    slot: u16,
    looks: u32,
}

impl Model for Watching {
    ghost use Rattle.std.specs.Prelude.{◌≤◌, ℕ};

    ghost Value = { ℕ × ℕ };

    ghost view = { λ w. (w.slot, w.looks) };

    ghost invariant = { λ w. (w.slot ≤ 255) × (1 ≤ w.looks) × (w.looks ≤ 65536) };
}

impl Watching {
    /// So many looks at this slot.
    fn new(slot: u16, looks: u32) -> Watching
        requires { IsWatching (slot, looks) }
        ensures { result ≡ (slot, looks) }
    {
        Watching { slot, looks }
    }

    /// The event.
    pub fn event(&self) -> EventNo
        ensures { result ≡ record { 0 = self.now.0 } }
    {
        EventNo(self.slot)
    }

    /// How many looks.
    pub fn looks(&self) -> u32
        ensures number { result ≡ self.now.1 }
        ensures some { 1 ≤ result }
    {
        self.looks
    }
}

/// What words ask for.
#[derive(Drop)]
pub enum Asked {
    /// A script is read and its own order done; its report is written.
    Replay,
    /// A script is read and run by threads; its report is written.
    Run,
    /// A script is read and run by threads, with a watcher beside them; its report is written, and what was seen.
    Watch(Watching),
    /// A script is read and its own order done; a table of what its events have counted is written.
    Stat,
    /// The script of a number of rounds is made and its own order done; what its report sums up to is written.
    Make(Rounds),
    /// The script of a number of rounds is made and written.
    MadeScript(Rounds),
    /// The line of these bytes of an attribute is written.
    Attr(ShortList<u8, MOST_BYTES>),
}

/// Whether a word is a number, in decimal without leading zeros.
fn says(word: &str, number: u32) -> bool
    ensures { IsTrue result ↔ (word.now ≡ decimal number) }
{
    let mut buffer = Buffer::new();
    word == buffer.format(number)
}

/// The number that a word says. None exactly where it says no number between two, or one with a zero too many in front.
fn number_of(word: &str, least: u32, most: u32) -> Option<u32>
    ensures { MatchOption result
        ((n : ℕ) → least ≤ n → n ≤ most → word.now ≡ decimal n → ⊥)
        (λ n. (least ≤ n) × (n ≤ most) × (word.now ≡ decimal n)) }
{
    match word.parse::<u32>() {
        Err(_) => None,
        Ok(number) => {
            if least <= number && number <= most && says(word, number) {
                Some(number)
            } else {
                None
            }
        }
    }
}

/// The number of rounds that a word says.
fn rounds_of(word: &str) -> Option<u32>
    ensures { MatchOption result
        ((n : ℕ) → 1 ≤ n → n ≤ 1000 → word.now ≡ decimal n → ⊥)
        (λ n. (1 ≤ n) × (n ≤ 1000) × (word.now ≡ decimal n)) }
{
    number_of(word, LEAST_ROUNDS, MOST_ROUNDS)
}

/// What `make` and a word behind it ask for.
fn asked_by_make(word: &str) -> Option<Asked>
    ensures { MatchOption result (AreKnown (codes "make" ∷ word.now ∷ []) → ⊥) (Asks (codes "make" ∷ word.now ∷ [])) }
{
    match rounds_of(word) {
        None => None,
        Some(rounds) => Some(Asked::Make(Rounds::new(rounds))),
    }
}

/// What `make`, a word behind it and `script` ask for.
fn asked_by_script(word: &str) -> Option<Asked>
    ensures { MatchOption result (AreKnown (codes "make" ∷ word.now ∷ codes "script" ∷ []) → ⊥) (Asks (codes "make" ∷ word.now ∷ codes "script" ∷ [])) }
{
    match rounds_of(word) {
        None => None,
        Some(rounds) => Some(Asked::MadeScript(Rounds::new(rounds))),
    }
}

/// What `watch` and two words behind it ask for.
fn asked_by_watch(slot: &str, looks: &str) -> Option<Asked>
    ensures { MatchOption result (AreKnown (codes "watch" ∷ slot.now ∷ looks.now ∷ []) → ⊥) (Asks (codes "watch" ∷ slot.now ∷ looks.now ∷ [])) }
{
    match number_of(slot, 0, LAST_SLOT) {
        None => None,
        Some(slot) => match number_of(looks, 1, MOST_LOOKS) {
            None => None,
            Some(looks) => Some(Asked::Watch(Watching::new(slot as u16, looks))),
        },
    }
}

/// What `attr` and a word behind it ask for.
fn asked_by_attr(word: &str) -> Option<Asked>
    ensures { MatchOption result (AreKnown (codes "attr" ∷ word.now ∷ []) → ⊥) (Asks (codes "attr" ∷ word.now ∷ [])) }
{
    let mut room = [0; MOST_BYTES];
    match read_bytes(word.as_bytes(), &mut room) {
        None => None,
        Some(count) => Some(Asked::Attr(ShortList::from_slice(&room[..count]))),
    }
}

/// What one word asks for.
fn asked_by_one(word: &str) -> Option<Asked>
    ensures { MatchOption result (AreKnown (word.now ∷ []) → ⊥) (Asks (word.now ∷ [])) }
{
    match word {
        "replay" => Some(Asked::Replay),
        "run" => Some(Asked::Run),
        "stat" => Some(Asked::Stat),
        _ => None,
    }
}

/// What two words ask for.
fn asked_by_two(first: &str, second: &str) -> Option<Asked>
    ensures { MatchOption result (AreKnown (first.now ∷ second.now ∷ []) → ⊥) (Asks (first.now ∷ second.now ∷ [])) }
{
    match first {
        "make" => asked_by_make(second),
        "attr" => asked_by_attr(second),
        _ => None,
    }
}

/// What three words ask for.
fn asked_by_three(first: &str, second: &str, third: &str) -> Option<Asked>
    ensures { MatchOption result (AreKnown (first.now ∷ second.now ∷ third.now ∷ []) → ⊥) (Asks (first.now ∷ second.now ∷ third.now ∷ [])) }
{
    if first == "make" && third == "script" {
        asked_by_script(second)
    } else if first == "watch" {
        asked_by_watch(second, third)
    } else {
        None
    }
}

/// What the words behind the program's name ask for. None exactly where they are none that the program knows. It takes
/// no memory.
pub fn asked_by(words: &[String]) -> Option<Asked>
    ensures { MatchOption result (AreKnown (map string_bytes words.now) → ⊥) (Asks (map string_bytes words.now)) }
{
    if words.len() == 1 {
        return asked_by_one(words[0].as_str());
    }
    if words.len() == 2 {
        return asked_by_two(words[0].as_str(), words[1].as_str());
    }
    if words.len() == 3 {
        return asked_by_three(words[0].as_str(), words[1].as_str(), words[2].as_str());
    }
    None
}

/// Words ask for at most one thing.
pub fn words_ask_one_thing()
    ensures { OneAskedLaw }
{}
