// Which record a line is, whether it is its turn, and its fields.
ghost use Rattle.std.specs.Prelude.{◌≡◌, ◌+◌, ◌≤◌, length, IfOk, OnOk};
ghost use Rattle.text.specs.Outcomes.{and_then, map_ok};
ghost use Rattle.text.specs.Lines.{fields_of};
ghost use Rattle.text.specs.Fields.{fields_left};
ghost use Rattle.records.specs.Records.{word_of, single_field, net_at, leading_word, after_first, entry_of, record_of};
ghost use Rattle.records.specs.Shown.{net_shown};
ghost use Rattle.reader.specs.Entries.{plain, Fits};

use crate::Reader;
use crate::body::Body;
use records::fields::{one_field, read_name, read_net};
use records::{Net, Record, Word};
use text::fault::{Fault, Reason};
use text::lines::{Fields, Line};

fn read_word<'a, B: Body<'a>>(bytes: &[u8]) -> Option<Word<B::Kind>>
    ensures { result ≡ word_of B.Body.format bytes.now }
{
    match bytes {
        b"CELL" => Some(Word::Cell),
        b"IN" => Some(Word::In),
        b"OUT" => Some(Word::Out),
        b"END" => Some(Word::End),
        _ => B::kind(bytes).map(Word::Item),
    }
}

// The word of a line, its first field.
pub fn first_word<'a, B: Body<'a>>(
    line: &Line<'a>,
    fields: &mut Fields<'a>,
) -> Result<Word<B::Kind>, Fault>
    ensures word { result ≡ leading_word B.Body.format line.now.number line.now.start (fields_left fields.old) }
    ensures left { OnOk result (fields_left fields.new ≡ after_first (fields_left fields.old)) }
{
    let first = fields.next().ok_or(line.fault(Reason::UnknownWord))?;
    read_word::<B>(first.bytes).ok_or(line.fault(Reason::UnknownWord))
}

// The one net after the word.
fn one_net<'a>(line: &Line<'a>, fields: Fields<'a>) -> Result<Net<'a>, Fault>
    ensures { map_ok net_shown result ≡ and_then (single_field line.now.number line.now.start (fields_left fields.entry)) (net_at line.now.number) }
{
    read_net(line, one_field(line, fields)?)
}

// The record that the fields after a word make.
fn entry<'a, B: Body<'a>>(
    line: &Line<'a>,
    word: Word<B::Kind>,
    fields: Fields<'a>,
) -> Result<Record<'a, B::Record>, Fault>
    ensures gives { map_ok (plain B.Body.shown) result ≡ entry_of B.Body.format line.now.number line.now.start word (fields_left fields.entry) }
    ensures fits { IfOk result (λ x. Fits B.Body.format (plain B.Body.shown x)) }
{
    match word {
        Word::Cell => {
            let field = one_field(line, fields)?;
            Ok(Record::Cell(read_name(line, field)?))
        }
        Word::In => Ok(Record::In(one_net(line, fields)?)),
        Word::Out => Ok(Record::Out(one_net(line, fields)?)),
        Word::Item(kind) => Ok(Record::Item(B::read(line, kind, fields)?)),
        Word::End => {
            if fields.none() {
                Ok(Record::End)
            } else {
                Err(line.fault(Reason::FieldCount))
            }
        }
    }
}

impl<'a> Reader<'a> {
    // The record of a line.
    pub fn record<B: Body<'a>>(&mut self, line: &Line<'a>) -> Result<Record<'a, B::Record>, Fault>
        requires { line.now.start + length line.now.bytes.now ≤ 32768 }
        ensures gives { map_ok (λ x. (self.new.stage, plain B.Body.shown x)) result ≡ record_of B.Body.format self.old.stage line.now.number line.now.start (fields_of line.now.start line.now.bytes.now) }
        ensures fits { IfOk result (λ x. Fits B.Body.format (plain B.Body.shown x)) }
        ensures same { self.new.lines ≡ self.old.lines }
    {
        let mut fields = line.fields();
        let word = first_word::<B>(line, &mut fields)?;
        self.turn(word, line)?;
        entry::<B>(line, word, fields)
    }
}
