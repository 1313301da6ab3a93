// What sets the two files apart: the records of the body, and what is looked at when END is read.
ghost use Rattle.std.specs.Prelude.{◌≡◌, ℕ, List, [], length, IfOk, OnOk};
ghost use Rattle.cell.specs.Circuits.{Circuit};
ghost use Rattle.text.specs.Outcomes.{map_ok, ok_with};
ghost use Rattle.text.specs.Fields.{fields_left};
ghost use Rattle.records.specs.Formats.{Format, NetAt};
ghost use Rattle.records.specs.Records.{looked, nets_counted, Proper};
ghost use Rattle.files.specs.Reading.{added_item};
ghost use Rattle.reader.specs.Gathered.{Closes};

use std::alloc::{AllocError, Global};
use text::fault::Fault;
use text::lines::{Fields, Line};

pub trait Body<'a>: Sized {
    type Kind: Copy;
    // a body record, which borrows its fields from the text
    type Record: Drop;

    ghost Item: { Type 0 };

    ghost format: { Format Self.Kind Item };

    ghost items: { Self → List Item };

    ghost shown: { Self.Record → Self.Kind × List NetAt };

    // what is kept beside the items of a circuit that was read
    ghost Kept: { Self → Circuit Item → Type 0 };

    // A body without items, which takes the room for all that a file may have.
    fn new(heap: Global) -> Result<Self, AllocError>
        ensures { IfOk result (λ b. items b ≡ []) };

    fn count(&self) -> usize
        ensures { result ≡ length (items self.now) };

    fn kind(bytes: &[u8]) -> Option<Self::Kind>
        ensures { result ≡ looked format.word format.kinds bytes.now };

    fn read(line: &Line<'a>, kind: Self::Kind, fields: Fields<'a>) -> Result<Self::Record, Fault>
        ensures gives { map_ok shown result ≡ map_ok (λ xs. (kind, xs)) (nets_counted (format.takes kind) line.now.number line.now.start (fields_left fields.entry)) }
        ensures proper { IfOk result (λ x. Proper format (shown x)) };

    fn clear(&mut self)
        ensures { items self.new ≡ [] };

    fn add(&mut self, ins: &[u8], item: &Self::Record, line: &Line<'a>) -> Result<(), Fault>
        requires { Proper format (shown item.now) }
        ensures { ok_with result (items self.new) ≡ added_item format ins.now (items self.old) line.now.number line.now.start (shown item.now).0 (shown item.now).1 };

    // END is read: the circuit is whole.
    fn close(&mut self, ins: &[u8], outs: &[u8], line: &Line<'a>) -> Result<(), Fault>
        ensures found { (name : List ℕ) → Closes format (record { name = name; ins = ins.now; outs = outs.now; body = items self.old }) line.now.number line.now.start result }
        ensures kept { (name : List ℕ) → OnOk result (Kept self.new (record { name = name; ins = ins.now; outs = outs.now; body = items self.old })) }
        ensures same { items self.new ≡ items self.old };
}
