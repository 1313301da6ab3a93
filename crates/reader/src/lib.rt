// The reader of records: the lines of the text, and what was read last.
#![tactic(auto)]

ghost use Rattle.std.specs.Prelude.{◌≡◌, ◌≤◌, true, false, length};
ghost use Rattle.text.specs.Outcomes.{ok_with};
ghost use Rattle.records.specs.Records.{turned};
ghost use Rattle.files.specs.Reading.{if_closed};

use records::{Stage, Word};
use text::fault::{Fault, Reason};
use text::lines::{Line, Lines};

pub mod body;
pub mod entries;

#[derive(Debug, Drop)]
pub struct Reader<'a> {
    pub lines: Lines<'a>,
    pub stage: Stage,
}

impl<'a> Reader<'a> {
    pub fn new(text: &'a [u8]) -> Reader<'a>
        requires { length text.now ≤ 32768 }
        ensures { (result.lines.text.now ≡ text.now) × (result.lines.pos ≡ 0) × (result.lines.line ≡ 1) × (result.stage ≡ Stage.Opening) }
    {
        Reader {
            lines: Lines::new(text),
            stage: Stage::Opening,
        }
    }

    pub fn closed(&self) -> bool
        ensures { result ≡ if_closed self.now.stage true false }
    {
        self.stage == Stage::Closed
    }

    // Moves on to what is read last after `word`, or declines it as out of turn.
    pub fn turn<K: Copy>(&mut self, word: Word<K>, line: &Line<'a>) -> Result<(), Fault>
        ensures stage { ok_with result self.new.stage ≡ turned self.old.stage word line.now.number line.now.start }
        ensures same { self.new.lines ≡ self.old.lines }
    {
        self.stage = match (self.stage, word) {
            (Stage::Opening, Word::Cell) => Stage::Inputs,
            (Stage::Inputs, Word::In) => Stage::Inputs,
            (Stage::Inputs | Stage::Outputs, Word::Out) => Stage::Outputs,
            (Stage::Outputs | Stage::Body, Word::Item(_)) => Stage::Body,
            (Stage::Outputs | Stage::Body, Word::End) => Stage::Closed,
            _ => return Err(line.fault(Reason::OutOfTurn)),
        };
        Ok(())
    }
}
