// The words of a sheet, and the parts of a line one after the other.
ghost use Rattle.std.specs.Prelude.{◌≡◌, length, MatchOption};
ghost use Rattle.std.specs.Iterator.{at_most};
ghost use Rattle.reader.specs.Exactly.{Exactly};
ghost use Rattle.reader.specs.Reading.{left, Opened, NoPart, NextPart};
ghost use Rattle.reader.specs.Words.{text};

use crate::lines::cut;
use crate::shapes::{Line, Part, Parts};

/// The words that a line can begin with.
#[derive(Clone, Copy)]
pub enum Word {
    User,
    Group,
    Open,
    Close,
    Admit,
    Remove,
    Base,
    View,
    Drop,
    Give,
    Ungive,
    Lend,
    Unlend,
    May,
}

impl<'a> Line<'a> {
    /// The parts of the line, from its first on.
    pub fn parts(&self) -> Parts<'a>
        ensures { Opened self.now result }
    {
        Parts {
            line: self.bytes,
            at: Some(0),
        }
    }
}

impl<'a> Parts<'a> {
    /// Takes the next part, which ends at a space or with the line. None past the last one.
    // Always inlined: the call would cost as much as a short part.
    #[inline(always)]
    #[tactic(auto, using(crate::proofs::Pieces::pieces))]
    pub fn next_part(&mut self) -> Option<Part<'a>>
        ensures { MatchOption result (NoPart self.old self.new)
            (λ x. NextPart self.old x self.new) }
    {
        let at = self.at?;
        let (end, next) = cut(self.line, at, b' ');
        self.at = next;
        Some(Part {
            at,
            bytes: &self.line[at..end],
        })
    }
}

/// The parts that are left, one after the other.
impl<'a> Iterator for Parts<'a> {
    type Item = Part<'a>;

    ghost next_gives = { λ p o q. MatchOption o (NoPart p q) (λ x. NextPart p x q) };

    ghost remaining = { λ p. at_most (length (left p)) };

    fn next(&mut self) -> Option<Part<'a>> {
        self.next_part()
    }
}

impl Part<'_> {
    /// The word that stands here, if one does.
    pub fn word(&self) -> Option<Word>
        ensures { Exactly result (λ w. text w ≡ self.now.bytes.now) }
    {
        match self.bytes {
            b"user" => Some(Word::User),
            b"group" => Some(Word::Group),
            b"open" => Some(Word::Open),
            b"close" => Some(Word::Close),
            b"admit" => Some(Word::Admit),
            b"remove" => Some(Word::Remove),
            b"base" => Some(Word::Base),
            b"view" => Some(Word::View),
            b"drop" => Some(Word::Drop),
            b"give" => Some(Word::Give),
            b"ungive" => Some(Word::Ungive),
            b"lend" => Some(Word::Lend),
            b"unlend" => Some(Word::Unlend),
            b"may" => Some(Word::May),
            _ => None,
        }
    }
}
