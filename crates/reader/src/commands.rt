// The commands of a sheet, made from a word and its numbers.
ghost use Rattle.std.specs.Prelude.{◌≡◌, ◌<◌, length, None};
ghost use Rattle.rights.specs.Read.{tables_in};
ghost use Rattle.reader.specs.Exactly.{Exactly};
ghost use Rattle.reader.specs.Spelling.{word as word_of, numbers as numbers_of, written, Padded, PaddedView, Plain};

use crate::numbers::numbers;
use crate::shapes::Line;
use crate::words::Word;
use arrayvec::ArrayVec;
use rights::{Command, Named};

// The tables of a view, if they are not too many. Not in `command_of` itself: with the conversion
// there the search gives up at the arms of six numbers.
fn named(list: &[u16]) -> Option<Named>
    ensures { Exactly result (λ d. (tables_in d ≡ list.now) × Padded d) }
{
    Named::try_from(list).ok()
}

// The command of a word and its numbers, if the word takes that many.
pub(crate) fn command_of(word: Word, list: &[u16]) -> Option<Command>
    ensures { Exactly result
        (λ c. (word_of c ≡ word) × (numbers_of c ≡ list.now) × PaddedView c) }
{
    match (word, list) {
        (Word::User, &[n, c]) => Some(Command::User { n, c }),
        (Word::Group, &[n]) => Some(Command::Group { n }),
        (Word::Open, []) => Some(Command::Open),
        (Word::Close, []) => Some(Command::Close),
        (Word::Admit, &[i, m, g]) => Some(Command::Admit { i, m, g }),
        (Word::Remove, &[i, m, g]) => Some(Command::Remove { i, m, g }),
        (Word::Base, &[i, t]) => Some(Command::Base { i, t }),
        (Word::View, [i, t, d @ ..]) => Some(Command::View {
            i: *i,
            t: *t,
            d: named(d)?,
        }),
        (Word::Drop, &[i, t]) => Some(Command::Drop { i, t }),
        (Word::Give, &[i, s, p, sign, t, strength]) => Some(Command::Give {
            i,
            s,
            p,
            sign,
            t,
            strength,
        }),
        (Word::Ungive, &[i, s, p, sign, t, strength]) => Some(Command::Ungive {
            i,
            s,
            p,
            sign,
            t,
            strength,
        }),
        (Word::Lend, &[i, s, p, t, kind, rank]) => Some(Command::Lend {
            i,
            s,
            p,
            t,
            kind,
            rank,
        }),
        (Word::Unlend, &[i, s, p, t, kind, rank]) => Some(Command::Unlend {
            i,
            s,
            p,
            t,
            kind,
            rank,
        }),
        (Word::May, &[u, p, t]) => Some(Command::May { u, p, t }),
        _ => None,
    }
}

// The command that a line is, if it is one.
#[tactic(auto, using(crate::proofs::Written::unread))]
fn read(line: &Line<'_>) -> Option<Command>
    ensures { Exactly result (λ c. Plain c × (written c ≡ line.now.bytes.now)) }
{
    let mut parts = line.parts();
    let word = parts.next_part()?.word()?;
    let mut rest = ArrayVec::new();
    numbers(parts, &mut rest)?;
    command_of(word, &rest)
}

/// The longest line that is read, without its end byte.
pub const LONGEST_LINE: usize = 80;

impl Line<'_> {
    /// The command that the line is, if it is one. No line over `LONGEST_LINE` bytes is.
    pub fn command(&self) -> Option<Command>
        ensures exactly { Exactly result (λ c. Plain c × (written c ≡ self.now.bytes.now)) }
        ensures long { 80 < length self.now.bytes.now → result ≡ None }
    {
        if self.bytes.len() > LONGEST_LINE {
            return None;
        }
        read(self)
    }
}
