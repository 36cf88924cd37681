// The parts of a sheet: its lines, the words and numbers of a line, and how far each was read.
ghost use Rattle.std.specs.Prelude.{◌≤◌, length};
ghost use Rattle.std.specs.Option.{ForSome};

/// A sheet that is read from the front: `at` is the place of the next line, `line` the number of
/// the last.
#[derive(Drop)]
pub struct Reader<'a> {
    pub(crate) bytes: &'a [u8],
    // A place beside the bytes: what is read stays a part of the sheet, with its place there.
    pub(crate) at: usize,
    pub(crate) line: u32,
    ghost short: { length bytes.now ≤ 32768 },
    ghost inside: { at ≤ length bytes.now },
    ghost counted: { line ≤ at },
}

/// A line of a sheet: its number from 1, its place in the sheet, and its bytes there without the
/// end byte.
#[derive(Clone, Copy)]
pub struct Line<'a> {
    pub number: u32,
    // A place beside the bytes: a line stays a part of the sheet.
    pub at: usize,
    pub bytes: &'a [u8],
}

/// The words and numbers of a line that were not yet given: those from `at` on, or none past the
/// last.
#[derive(Drop)]
pub struct Parts<'a> {
    pub(crate) line: &'a [u8],
    // A place beside the bytes: what is read stays a part of the line, with its place there.
    pub(crate) at: Option<usize>,
    ghost inside: { ForSome at (λ i. i ≤ length line.now) },
}

/// A word or a number of a line, with its place in the line.
#[derive(Clone, Copy)]
pub struct Part<'a> {
    // A place beside the bytes: a word stays a part of the line.
    pub at: usize,
    pub bytes: &'a [u8],
}
