// The writer of answers.
ghost use Rattle.std.specs.Prelude.{◌≡◌, ◌+◌, ◌≤◌, ◌++◌, length, drop, IfOk, decimal};
ghost use Rattle.reader.specs.Answers.{answer_text, answer_line, Put, Answered};

use itoa::write_digits;
use rights::{Answer, RegisterFault};

/// The shortest buffer that an answer is written to.
pub const SHORTEST_BUFFER: usize = 32;

// By hand: `impl Display for Answer` proves, but no clause says when a `write!` of it gives `Ok`.
// In its place: a text made beside the buffer costs one copy more, of a length that is not known
// here and of bytes that were just written.

// Writes `text` from `at` on, and gives the place after it.
fn put_text(buffer: &mut [u8], at: usize, text: &[u8]) -> usize
    requires { at + length text.now ≤ length buffer.old }
    ensures { Put at text.now buffer.old result buffer.new }
{
    let end = at + text.len();
    buffer[at..end].copy_from_slice(text);
    end
}

// How many digits a number has: 0 has as many as 1.
fn digits(n: u32) -> usize
    ensures { result ≡ length (decimal n) }
{
    n.max(1).ilog10() as usize + 1
}

// Writes the digits of `n` from `at` on, and gives the place after them.
fn put_number(buffer: &mut [u8], at: usize, n: u32) -> usize
    requires { at + length (decimal n) ≤ length buffer.old }
    ensures { Put at (decimal n) buffer.old result buffer.new }
{
    let end = at + digits(n);
    write_digits(u64::from(n), buffer, end);
    end
}

// Writes `words` and then the digits of `n` from `at` on, and gives the place after them.
fn put_both(buffer: &mut [u8], at: usize, words: &[u8], n: u32) -> usize
    requires { at + length (words.now ++ decimal n) ≤ length buffer.old }
    ensures { Put at (words.now ++ decimal n) buffer.old result buffer.new }
{
    let next = put_text(buffer, at, words);
    put_number(buffer, next, n)
}

// Writes an answer from `at` on, without line number and end byte, and gives the place after it.
fn put_answer(buffer: &mut [u8], at: usize, answer: &Answer) -> usize
    requires { at + 13 ≤ length buffer.old }
    ensures put { Put at (answer_text answer.now) buffer.old result buffer.new }
    ensures short { length (answer_text answer.now) ≤ 13 }
{
    match answer {
        Answer::Done => put_text(buffer, at, b"ok"),
        Answer::Struck(count) => put_both(buffer, at, b"ok ", *count),
        Answer::Yes(ground) => put_both(buffer, at, b"yes ", u32::from(*ground)),
        Answer::No(ground) => put_both(buffer, at, b"no ", u32::from(*ground)),
        Answer::Refused(fault) => {
            let next = put_both(buffer, at, b"refused ", u32::from(fault.number()));
            put_both(buffer, next, b" ", u32::from(fault.layer()))
        }
    }
}

// Writes the answer to a line at the front of the buffer, and gives its length. The number and the
// answer stay two all the way: a caller has one from the reader and the other from the sitting.
fn put_line(buffer: &mut [u8], line: u32, answer: &Answer) -> usize
    requires { 32 ≤ length buffer.old }
    ensures text { buffer.new ≡ answer_line line answer.now ++ drop result buffer.old }
    ensures past { result ≡ length (answer_line line answer.now) }
    ensures short { result ≤ 25 }
{
    let at = put_number(buffer, 0, line);
    let at = put_text(buffer, at, b" ");
    let at = put_answer(buffer, at, answer);
    put_text(buffer, at, b"\n")
}

/// Writes the answer to a line at the front of the buffer, and gives its length. A short buffer is
/// refused and left as it is.
pub fn write_answer(buffer: &mut [u8], line: u32, answer: &Answer) -> Result<usize, RegisterFault>
    ensures answered { Answered line answer.now buffer.old result buffer.new }
    ensures short { IfOk result (λ k. k ≤ 25) }
{
    if buffer.len() < SHORTEST_BUFFER {
        return Err(RegisterFault::ShortList);
    }
    Ok(put_line(buffer, line, answer))
}
