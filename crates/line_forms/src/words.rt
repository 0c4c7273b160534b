//! The words of a line, from the left.

ghost use Rattle.std.specs.Prelude.{◌≡◌, ◌≤◌, not, ◌==◌, if◌then◌else◌, length, false, IsTrue, IfSome, None};
ghost use Rattle.std.specs.List.{prefix_len};
ghost use Rattle.std.specs.Option.{option_map};
ghost use Rattle.script_spec.specs.Lines.{pieces};
ghost use Rattle.line_forms.specs.Words as says;
ghost use Rattle.line_forms.specs.Words.{left, next_of, end_of, strip, behind, begins, pieces_behind};

/// Whether a byte of a kind first stands third: most words of an order are of two bytes.
fn is_third(text: &[u8], by: u8) -> bool
    ensures count { IsTrue result → prefix_len (λ b. not (b == by)) text.now ≡ 2 }
    ensures within { IsTrue result → 2 ≤ length text.now }
{
    match text {
        [first, second, third, ..] => *third == by && *first != by && *second != by,
        _ => false,
    }
}

/// How many bytes stand before the first of a kind.
fn length_before(text: &[u8], by: u8) -> usize
    ensures count { result ≡ prefix_len (λ b. not (b == by)) text.now }
    ensures within { result ≤ length text.now }
{
    if is_third(text, by) {
        2
    } else {
        text.iter().take_while(|byte| **byte != by).count()
    }
}

/// What stands before the first of some bytes, and what stands behind it, if there is one.
#[tactic(auto, unfolding(crate::specs::Words::cut))]
pub fn cut(text: &[u8], by: u8) -> (&[u8], Option<&[u8]>)
    ensures { (result.0.now, option_map (λ t. t.now) result.1) ≡ says.cut by text.now }
{
    let length = length_before(text, by);
    if length < text.len() {
        (&text[..length], Some(&text[length + 1..]))
    } else {
        (text, None)
    }
}

/// The bytes behind a literal.
#[tactic(auto, unfolding(crate::specs::Words::strip))]
pub fn skip<'a>(text: &'a [u8], literal: &[u8]) -> Option<&'a [u8]>
    ensures { option_map (λ rest. rest.now) result ≡ strip literal.now text.now }
{
    if text.starts_with(literal) {
        Some(&text[literal.len()..])
    } else {
        None
    }
}

/// The words of a text that were not read yet. Between each two stands one byte of a kind.
#[derive(Clone, Copy)]
pub struct Words<'a> {
    rest: Option<&'a [u8]>,
    by: u8,
}

impl<'a> Words<'a> {
    /// All words of a text.
    pub fn of(text: &'a [u8], by: u8) -> Words<'a>
        ensures { left result ≡ pieces by text.now }
    {
        Words {
            rest: Some(text),
            by,
        }
    }

    /// The first word, and those behind it.
    pub fn next(self) -> Option<(&'a [u8], Words<'a>)>
        ensures { option_map (λ x. (x.0.now, left x.1)) result ≡ next_of (left self.entry) }
    {
        let (word, rest) = cut(self.rest?, self.by);
        Some((word, Words { rest, by: self.by }))
    }

    /// The text that is left, where a byte of this kind parts its words. None also stands for no text.
    pub fn parted_by(self, by: u8) -> Option<&'a [u8]>
        ensures words { IfSome result (λ text. left self.entry ≡ pieces by text.now) }
        ensures rest { result ≡ (if self.entry.by == by then self.entry.rest else None) }
    {
        if self.by == by { self.rest } else { None }
    }

    /// The words of what stands behind a word, where something does.
    pub fn behind(rest: Option<&'a [u8]>, by: u8) -> Words<'a>
        ensures { left result ≡ pieces_behind by (option_map (λ text. text.now) rest.entry) }
    {
        Words { rest, by }
    }

    /// Whether the first word may begin with a literal. Where the rest does not, the word does not.
    pub fn may_begin(self, literal: &[u8]) -> bool
        ensures word { result ≡ false → behind literal.now (left self.entry) ≡ None }
        ensures rest { result ≡ begins (option_map (λ text. text.now) self.entry.rest) literal.now }
    {
        match self.rest {
            None => false,
            Some(text) => text.starts_with(literal),
        }
    }

    /// Some exactly where no word is left.
    pub fn end(self) -> Option<()>
        ensures { result ≡ end_of (left self.entry) }
    {
        match self.rest {
            None => Some(()),
            Some(_) => None,
        }
    }
}
