// Marks a sheet: one answer for each of its lines.
#![tactic(auto)]

ghost use Rattle.std.specs.Prelude.{◌≡◌, ◌++◌, IfOk, OnOk};
ghost use Rattle.reader.specs.Answers.{answer_line};
ghost use Rattle.sitting.specs.Today.{state_of, history_of};
ghost use Rattle.marking.specs.Marks.{LineAnswered, Marked};

use reader::{Line, Reader, SHORTEST_BUFFER, fits, write_answer};
use register::Catalogue;
use rights::{Answer, SheetFault};
use sitting::Sitting;
use std::alloc::{AllocError, Global};

/// The answers to a whole sheet, as they are printed.
pub fn mark(heap: Global, sheet: &[u8]) -> Result<Vec<u8>, AllocError>
    ensures { IfOk result (λ v. Marked sheet.now v.items) }
{
    let mut out = Vec::new(heap);
    if !fits(sheet) {
        append(&mut out, 0, &Answer::Refused(SheetFault::Unreadable))?;
        return Ok(out);
    }
    let mut catalogue = Catalogue::new();
    let mut sitting = Sitting::begin();
    for line in Reader::new(sheet) {
        let (next, answer) = answer_to(sitting, &mut catalogue, &line);
        sitting = next;
        append(&mut out, line.number, &answer)?;
    }
    Ok(out)
}

// The answer to one line. A line that is no command is unreadable and changes nothing.
fn answer_to(sitting: Sitting, catalogue: &mut Catalogue, line: &Line<'_>) -> (Sitting, Answer)
    ensures { LineAnswered (state_of sitting) (history_of catalogue.old) line.now.bytes.now
        result.1 (state_of result.0) (history_of catalogue.new) }
{
    // No `map_or`: either arm takes the sitting, which is moved.
    match line.command() {
        Some(command) => sitting.take(catalogue, command),
        None => (sitting, Answer::Refused(SheetFault::Unreadable)),
    }
}

// Adds the text of an answer.
fn append(out: &mut Vec<u8>, line: u32, answer: &Answer) -> Result<(), AllocError>
    ensures { OnOk result (out.new.items ≡ out.old.items ++ answer_line line answer.now) }
{
    // The shortest buffer that an answer fits, on the stack: the writer takes its caller's buffer.
    let mut buffer = [0; SHORTEST_BUFFER];
    let end = write_answer(&mut buffer, line, answer).unwrap();
    out.extend_from_slice(&buffer[0..end])
}
