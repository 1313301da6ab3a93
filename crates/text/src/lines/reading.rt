ghost use Rattle.std.specs.Prelude.{◌≡◌, ◌+◌, ◌-◌, ◌<◌, ◌≤◌, [], ◌∷◌, length, MatchResult};
ghost use Rattle.std.specs.Option.{option_map};
ghost use Rattle.std.specs.Iterator.{YieldsFirstBy, item_count};
ghost use Rattle.text.specs.Faults.{fault};
ghost use Rattle.text.specs.Split.{first};
ghost use Rattle.text.specs.Lines.{graphic as is_graphic, field_formed, formed as is_formed, fields_of, part_of, NextLine, only_one, only_three, three_parts, is_nil};
ghost use Rattle.text.specs.Fields.{fields_left};

use super::{Field, Fields, LIMIT, Line, Lines};
use crate::fault::{Fault, Reason};

// The index of the first `b`, or the length.
fn until(s: &[u8], b: u8) -> usize
    ensures value { result ≡ first b s.now }
    ensures bound { result ≤ length s.now }
{
    s.iter().position(|&x| x == b).unwrap_or(s.len())
}

fn graphic(b: u8) -> bool
    ensures { result ≡ is_graphic b }
{
    matches!(b, 33..=126)
}

// A field is not empty, and its bytes are 33 to 126.
fn is_field(bytes: &[u8]) -> bool
    ensures { result ≡ field_formed bytes.now }
{
    !bytes.is_empty() && bytes.iter().all(|&b| graphic(b))
}

fn formed(bytes: &[u8]) -> bool
    ensures { result ≡ is_formed bytes.now }
{
    bytes.split(|&b| b == b'\t').all(is_field)
}

impl<'a> Line<'a> {
    pub fn fields(&self) -> Fields<'a>
        requires { self.now.start + length self.now.bytes.now ≤ 32768 }
        ensures { fields_left result ≡ fields_of self.now.start self.now.bytes.now }
    {
        Fields {
            rest: Some(self.bytes),
            place: self.start,
        }
    }

    // A decline at the line's start.
    pub fn fault(&self, reason: Reason) -> Fault
        ensures { result ≡ fault reason self.now.number self.now.start }
    {
        self.fault_at(reason, self.start)
    }

    // A decline at a place in the line.
    pub fn fault_at(&self, reason: Reason, place: usize) -> Fault
        ensures { result ≡ fault reason self.now.number place }
    {
        Fault::new(reason, self.number, place)
    }
}

impl<'a> Iterator for Fields<'a> {
    type Item = Field<'a>;

    ghost next_gives = { YieldsFirstBy part_of fields_left };

    ghost remaining = { item_count fields_left };

    fn next(&mut self) -> Option<Field<'a>> {
        let rest = self.rest?;
        let place = self.place;
        let n = until(rest, b'\t');
        let field = Field {
            bytes: &rest[0..n],
            place,
        };
        if n < rest.len() {
            *self = Fields {
                rest: Some(&rest[n + 1..]),
                place: place + n + 1,
            };
        } else {
            *self = Fields { rest: None, place };
        }
        Some(field)
    }
}

impl<'a> Fields<'a> {
    // Whether no field is left.
    pub fn none(mut self) -> bool
        ensures { result ≡ is_nil (fields_left self.entry) }
    {
        self.next().is_none()
    }

    // How many fields are left.
    pub fn count(self) -> usize
        ensures { result ≡ length (fields_left self.entry) }
    {
        Iterator::count(self)
    }

    // The one field that is left. `one` and `three` take their fields by a pattern that names each, which an array of them would not.
    pub fn one(mut self) -> Option<Field<'a>>
        ensures { option_map part_of result ≡ only_one (fields_left self.entry) }
    {
        match (self.next(), self.next()) {
            (Some(a), None) => Some(a),
            _ => None,
        }
    }

    // The three fields that are left.
    pub fn three(mut self) -> Option<(Field<'a>, Field<'a>, Field<'a>)>
        ensures { option_map three_parts result ≡ only_three (fields_left self.entry) }
    {
        let (Some(a), Some(b), Some(c), None) = (self.next(), self.next(), self.next(), self.next())
        else {
            return None;
        };
        Some((a, b, c))
    }
}

// Declines a text of more than 32,768 bytes.
pub fn sized(text: &[u8]) -> Result<(), Fault>
    ensures { MatchResult result (λ _. length text.now ≤ 32768) (λ f. (32768 < length text.now) × (f ≡ fault Reason.TextTooLong 0 0)) }
{
    if text.len() > LIMIT {
        return Err(Reason::TextTooLong.into());
    }
    Ok(())
}

impl<'a> Lines<'a> {
    pub fn new(text: &'a [u8]) -> Lines<'a>
        requires { length text.now ≤ 32768 }
        ensures { (result.text.now ≡ text.now) × (result.pos ≡ 0) × (result.line ≡ 1) }
    {
        Lines {
            text,
            pos: 0,
            line: 1,
        }
    }

    // The next line, without its line feed; none where the text ends. No iterator's step: a line that is not in form ends a reading by `?`.
    pub fn next_line(&mut self) -> Result<Option<Line<'a>>, Fault>
        ensures gives { NextLine self.old.text.now self.old.pos self.old.line result self.new.pos self.new.line }
        ensures same { self.new.text.now ≡ self.old.text.now }
    {
        if self.pos >= self.text.len() {
            return Ok(None);
        }
        let start = self.pos;
        let number = self.line;
        let text = self.text;
        let rest = &text[start..];
        let n = until(rest, b'\n');
        let bytes = &rest[0..n];
        if n == rest.len() || !formed(bytes) {
            return Err(Fault::new(Reason::MalformedLine, number, start));
        }
        *self = Lines {
            text,
            pos: start + n + 1,
            line: number + 1,
        };
        Ok(Some(Line {
            bytes,
            number,
            start,
        }))
    }
}
