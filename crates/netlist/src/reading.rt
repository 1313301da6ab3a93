// A whole text into a netlist.
ghost use Rattle.std.specs.Prelude.{◌≡◌, OnOk};
ghost use Rattle.text.specs.Outcomes.{ok_with};
ghost use Rattle.files.specs.Reading.{nothing_after, Reads};
ghost use Rattle.netlist.specs.Circuits.{circuit_of};
ghost use Rattle.netlist.specs.Endings.{lines_left, goes_on, UpTo};

use crate::netlist::Netlist;
use reader::Reader;
use reader::body::Body;
use reader::entries::first_word;
use text::fault::{Fault, Reason};
use text::lines::reading::sized;

// Gathers the records up to END.
fn read_to_end<'a, B: Body<'a>>(
    reader: &mut Reader<'a>,
    netlist: &mut Netlist<B>,
) -> Result<(), Fault>
    ensures kept { OnOk result (B.Body.Kept netlist.new.body (circuit_of B.Body.items netlist.new)) }
    ensures gives { UpTo B.Body.format (goes_on B.Body.format reader.old (circuit_of B.Body.items netlist.old)) result (circuit_of B.Body.items netlist.new) reader.new.lines }
{
    loop {
        let Some(line) = reader.lines.next_line()? else {
            return Err(Fault::new(Reason::OutOfTurn, reader.lines.line, reader.lines.pos));
        };
        let item = reader.record::<B>(&line)?;
        netlist.add(item, &line)?;
        if reader.closed() {
            return netlist.close(&line);
        }
    }
}

// Nothing follows END: a further line is declined.
fn finish<'a, B: Body<'a>>(reader: &mut Reader<'a>) -> Result<(), Fault>
    ensures { result ≡ nothing_after B.Body.format reader.old.lines.line reader.old.lines.pos (lines_left reader.old.lines) }
{
    let Some(line) = reader.lines.next_line()? else {
        return Ok(());
    };
    let mut fields = line.fields();
    first_word::<B>(&line, &mut fields)?;
    Err(line.fault(Reason::OutOfTurn))
}

// Reads a text; what the netlist held before is gone.
pub fn read<'a, B: Body<'a>>(text: &'a [u8], netlist: &mut Netlist<B>) -> Result<(), Fault>
    ensures kept { OnOk result (B.Body.Kept netlist.new.body (circuit_of B.Body.items netlist.new)) }
    ensures gives { Reads B.Body.format text.now (ok_with result (circuit_of B.Body.items netlist.new)) }
{
    sized(text)?;
    netlist.clear();
    let mut reader = Reader::new(text);
    read_to_end(&mut reader, netlist)?;
    finish::<B>(&mut reader)
}
