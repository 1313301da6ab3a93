ghost use Rattle.std.specs.Prelude.{◌≡◌, [], OnOk};
ghost use Rattle.text.specs.Outcomes.{ok_with};
ghost use Rattle.records.specs.Shown.{net_shown};
ghost use Rattle.files.specs.Reading.{blank, added};
ghost use Rattle.reader.specs.Entries.{plain, Fits};
ghost use Rattle.reader.specs.Gathered.{Closes};
ghost use Rattle.netlist.specs.Circuits.{circuit_of, port_added};

use super::{Netlist, PORTS};
use arrayvec::ArrayVec;
use cell::is_rail;
use reader::body::Body;
use records::{Net, Record};
use text::fault::{Fault, Reason};
use text::lines::Line;

// Adds a port of one kind; `others` are nets that it may not be either.
fn add_port(
    ports: &mut ArrayVec<u8, PORTS>,
    others: &[u8],
    net: &Net<'_>,
    line: &Line<'_>,
) -> Result<(), Fault>
    ensures { ok_with result ports.new.items ≡ port_added others.now ports.old.items line.now.number line.now.start (net_shown net.now) }
{
    if ports.is_full() {
        return Err(line.fault(Reason::TooManyRecords));
    }
    if is_rail(net.value) || others.contains(&net.value) || ports.contains(&net.value) {
        return Err(line.fault_at(Reason::NetNotAllowed, net.field.place));
    }
    ports.push(net.value);
    Ok(())
}

impl<'a, B: Body<'a>> Netlist<B> {
    // A netlist without ports, around a body.
    pub fn new(body: B) -> Netlist<B>
        ensures { circuit_of B.Body.items result ≡ record { name = []; ins = []; outs = []; body = B.Body.items body } }
    {
        Netlist {
            name: ArrayVec::new(),
            ins: ArrayVec::new(),
            outs: ArrayVec::new(),
            body,
        }
    }

    pub fn ins(&self) -> &[u8]
        ensures { result.now ≡ (circuit_of B.Body.items self.now).ins }
    {
        &self.ins
    }

    pub fn outs(&self) -> &[u8]
        ensures { result.now ≡ (circuit_of B.Body.items self.now).outs }
    {
        &self.outs
    }

    pub(crate) fn clear(&mut self)
        ensures { circuit_of B.Body.items self.new ≡ blank }
    {
        self.name.clear();
        self.ins.clear();
        self.outs.clear();
        self.body.clear();
    }

    // Adds what a record says; END adds nothing.
    pub(crate) fn add(&mut self, item: Record<'a, B::Record>, line: &Line<'a>) -> Result<(), Fault>
        requires { Fits B.Body.format (plain B.Body.shown item) }
        ensures { ok_with result (circuit_of B.Body.items self.new) ≡ added B.Body.format (circuit_of B.Body.items self.old) line.now.number line.now.start (plain B.Body.shown item.entry) }
    {
        match item {
            Record::Cell(field) => {
                self.name.clear();
                let _ = self.name.try_extend_from_slice(field.bytes);
                Ok(())
            }
            Record::In(net) => add_port(&mut self.ins, &[], &net, line),
            Record::Out(net) => add_port(&mut self.outs, &self.ins, &net, line),
            Record::Item(item) => self.body.add(&self.ins, &item, line),
            Record::End => Ok(()),
        }
    }

    // END is read: the circuit is whole.
    pub(crate) fn close(&mut self, line: &Line<'a>) -> Result<(), Fault>
        ensures found { Closes B.Body.format (circuit_of B.Body.items self.old) line.now.number line.now.start result }
        ensures kept { OnOk result (B.Body.Kept self.new.body (circuit_of B.Body.items self.old)) }
        ensures same { circuit_of B.Body.items self.new ≡ circuit_of B.Body.items self.old }
    {
        self.body.close(&self.ins, &self.outs, line)
    }
}
