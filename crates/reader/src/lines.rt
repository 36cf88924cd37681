// The reader of a sheet, a line at a time.
ghost use Rattle.std.specs.Prelude.{◌≡◌, ◌≤◌, ◌↔◌, length, MatchOption, IsTrue};
ghost use Rattle.std.specs.Iterator.{at_most};
ghost use Rattle.memchr.specs.Find.{IsFirstByte, is_byte};
ghost use Rattle.reader.specs.Reading.{rest, Cut, Begun, Ended, Next};

use crate::shapes::{Line, Reader};
use memchr::memchr_iter;

/// The longest sheet that is read.
pub const LONGEST: usize = 32_768;

/// Whether a sheet is short enough to be read.
pub fn fits(bytes: &[u8]) -> bool
    ensures { IsTrue result ↔ (length bytes.now ≤ 32768) }
{
    bytes.len() <= LONGEST
}

// How many bytes of a piece are looked at one by one: most lines, words and numbers of a sheet end
// within them, and a search by vectors costs more than such a piece.
const NEAR: usize = 16;

// The first `stop` of a few bytes.
#[inline(always)]
fn first_of_few(stop: u8, bytes: &[u8]) -> Option<usize>
    ensures { IsFirstByte (is_byte stop) bytes.now result }
{
    bytes.iter().position(|byte| *byte == stop)
}

// The first `stop` of many bytes. The iterator tries the next 32 first, as `memchr` does not. Out of
// line, so that the way past a few bytes stays short.
#[inline(never)]
fn first_of_many(stop: u8, bytes: &[u8]) -> Option<usize>
    ensures { IsFirstByte (is_byte stop) bytes.now result }
{
    memchr_iter(stop, bytes).next()
}

// The first `stop` of some bytes.
#[inline(always)]
fn first(stop: u8, bytes: &[u8]) -> Option<usize>
    ensures { IsFirstByte (is_byte stop) bytes.now result }
{
    if bytes.len() <= NEAR {
        return first_of_few(stop, bytes);
    }
    let near = first_of_few(stop, &bytes[..NEAR]);
    if near.is_some() {
        return near;
    }
    Some(NEAR + first_of_many(stop, &bytes[NEAR..])?)
}

// Where the piece from `from` on ends, at the first `stop` or with the bytes, and the place past
// that stop. Always inlined, as what it calls: the call would cost as much as a short piece.
#[inline(always)]
pub(crate) fn cut(bytes: &[u8], from: usize, stop: u8) -> (usize, Option<usize>)
    requires { from ≤ length bytes.now }
    ensures { Cut stop bytes.now from result.0 result.1 }
{
    let rest = &bytes[from..];
    let end = from + first(stop, rest).unwrap_or(rest.len());
    (end, (end < bytes.len()).then_some(end + 1))
}

impl<'a> Reader<'a> {
    /// Begins a sheet. One that does not fit gives no line.
    pub fn new(bytes: &'a [u8]) -> Reader<'a>
        ensures { Begun bytes.now result }
    {
        let bytes = if fits(bytes) { bytes } else { &bytes[0..0] };
        Reader {
            bytes,
            at: 0,
            line: 0,
        }
    }

    /// Takes the next line, readable or not. None at the end of the sheet.
    // Always inlined: the call would cost as much as a short line.
    #[inline(always)]
    #[tactic(auto, using(crate::proofs::Pieces::pieces, std::proofs::lemmas::List::drop_all))]
    pub fn next_line(&mut self) -> Option<Line<'a>>
        ensures { MatchOption result (Ended self.old self.new) (λ l. Next self.old l self.new) }
    {
        if self.at >= self.bytes.len() {
            return None;
        }
        let at = self.at;
        let (end, next) = cut(self.bytes, at, b'\n');
        self.at = next.unwrap_or(end);
        self.line += 1;
        Some(Line {
            number: self.line,
            at,
            bytes: &self.bytes[at..end],
        })
    }
}

/// The lines that are left, one after the other.
impl<'a> Iterator for Reader<'a> {
    type Item = Line<'a>;

    ghost next_gives = { λ r o s. MatchOption o (Ended r s) (λ l. Next r l s) };

    ghost remaining = { λ r. at_most (length (rest r)) };

    fn next(&mut self) -> Option<Line<'a>> {
        self.next_line()
    }
}
