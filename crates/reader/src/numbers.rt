// The numbers of a line.
ghost use Rattle.std.specs.Prelude.{◌≡◌, ℕ, ◌+◌, ◌≤◌, List, [], decimal, MatchOption};
ghost use Rattle.std.specs.Int.{IsInRange};
ghost use Rattle.reader.specs.Exactly.{Exactly};
ghost use Rattle.reader.specs.Reading.{left, Numbered};

use crate::shapes::{Part, Parts};
use arrayvec::ArrayVec;

// The digit that a byte is, if it is one.
fn digit(byte: u8) -> Option<u16>
    ensures { MatchOption result (IsInRange 48 57 byte → ⊥)
        (λ d. IsInRange 48 57 byte × (d + 48 ≡ byte)) }
{
    byte.is_ascii_digit().then(|| u16::from(byte - b'0'))
}

// The number that some digits are, if they are 1 to 3 without a leading zero.
fn value_of(digits: &[u8]) -> Option<u16>
    ensures { Exactly result (λ n. (n ≤ 999) × (decimal n ≡ digits.now)) }
{
    match *digits {
        [b'0', _, ..] => None,
        [a] => digit(a),
        [a, b] => Some(10 * digit(a)? + digit(b)?),
        [a, b, c] => Some(100 * digit(a)? + 10 * digit(b)? + digit(c)?),
        _ => None,
    }
}

impl Part<'_> {
    /// The number that stands here, if one of 1 to 3 digits without a leading zero does.
    pub fn number(&self) -> Option<u16>
        ensures { Exactly result (λ n. (n ≤ 999) × (decimal n ≡ self.now.bytes.now)) }
    {
        value_of(self.bytes)
    }
}

// Takes the parts that are left, if each is a number and they are not too many. The list is lent
// and not handed out: what was just written is dear to copy.
pub(crate) fn numbers(parts: Parts<'_>, list: &mut ArrayVec<u16, 16>) -> Option<()>
    requires { list.old.items ≡ [] }
    ensures { MatchOption result ((ns : List ℕ) → Numbered (left parts.entry) ns → ⊥)
        (λ _. Numbered (left parts.entry) list.new.items) }
{
    for part in parts {
        list.try_push(part.number()?).ok()?;
    }
    Some(())
}
