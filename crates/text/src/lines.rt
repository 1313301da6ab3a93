// The lines of a text and the fields of a line, as parts of the caller's bytes.
ghost use Rattle.std.specs.Prelude.{◌+◌, ◌≤◌, length};
ghost use Rattle.text.specs.Lines.{left_len};

pub mod reading;

// The most bytes that a text may have.
pub const LIMIT: usize = 32768;

// A part of the text between two tabs, with its place in the text.
#[derive(Clone, Copy, Debug, Default, PartialEq, Eq)]
pub struct Field<'a> {
    pub bytes: &'a [u8],
    pub place: usize,
}

// A line without its line feed; `start` is its place in the text.
#[derive(Clone, Copy, Debug, PartialEq, Eq)]
pub struct Line<'a> {
    pub bytes: &'a [u8],
    pub number: usize,
    pub start: usize,
}

// The fields that are left of a line: none, or the bytes from the next one on.
#[derive(Clone, Copy, Debug)]
pub struct Fields<'a> {
    rest: Option<&'a [u8]>,
    place: usize,
    ghost within: { place + left_len rest ≤ 32768 },
}

// A reader of lines: the text, the place of the next line and its number.
#[derive(Debug, Drop)]
pub struct Lines<'a> {
    pub text: &'a [u8],
    pub pos: usize,
    pub line: usize,
    ghost short: { length text.now ≤ 32768 },
    ghost within: { pos ≤ length text.now },
    ghost counted: { line ≤ pos + 1 },
}
