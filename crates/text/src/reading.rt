// Lines, numbers and lists of numbers, read from texts.
ghost use Rattle.std.specs.Prelude.{MatchOption};
ghost use Rattle.text.specs.Requests.{Number, Optional, FewNumbers, Line};
ghost use Rattle.text.specs.Reading.{Any, Meant, Stands};

use crate::NumberList;

// The value of the line that the text begins with, if it has this key, and the text after the line.
pub fn take_line<'a>(text: &'a [u8], key: &[u8]) -> Option<(&'a [u8], &'a [u8])>
    ensures { MatchOption result (Line key.now Any Any text.now → ⊥) (λ p. Stands key.now text.now p.0.now p.1.now) }
{
    let rest = text.strip_prefix(key)?;
    let end = rest.iter().position(|b| *b == b'\n')?;
    Some((&rest[..end], &rest[end + 1..]))
}

// A number of one to three digits.
#[tactic(auto, unfolding(crate::specs::Requests::number_of))]
pub fn number(text: &[u8]) -> Option<u8>
    ensures { Meant result (Number text.now) }
{
    if text.is_empty() || 3 < text.len() {
        return None;
    }
    let mut value: u16 = 0;
    for b in text {
        if !b.is_ascii_digit() {
            return None;
        }
        value = value * 10 + u16::from(*b - b'0');
    }
    u8::try_from(value).ok()
}

// A number, or `other` for an empty text.
pub fn optional(text: &[u8], other: u8) -> Option<u8>
    ensures { Meant result (Optional other text.now) }
{
    if text.is_empty() {
        return Some(other);
    }
    number(text)
}

// Numbers with commas between them, at most as many as there can be points.
pub fn numbers(text: &[u8]) -> Option<NumberList>
    ensures { Meant result (FewNumbers text.now) }
{
    let mut items = NumberList::new();
    for part in text.split(|b| *b == b',') {
        items.push(number(part)?)?;
    }
    Some(items)
}
