ghost use Rattle.std.specs.Prelude.{◌≡◌, ◌<◌, ◌≤◌, [], length, IfOk};
ghost use Rattle.cell.specs.Circuits.{Gate};
ghost use Rattle.records.specs.Kinds.{gate_kinds, gate_word};
ghost use Rattle.records.specs.Records.{looked, values};
ghost use Rattle.records.specs.Shown.{gate_shown, nets_shown};
ghost use Rattle.files.specs.Files.{intended_format, gate_from, driven, is_known, gate_barred};
ghost use Rattle.circuits.specs.Bodies.{gate_held, gates_of};

use super::{Gates, INPUTS, LogicGate, MOST};
use cell::{GateKind, is_rail};
use reader::body::Body;
use records::gates::read_gate;
use records::words::kind_of;
use records::{GateRecord, Net};
use std::alloc::{AllocError, Global};
use text::fault::{Fault, Reason};
use text::lines::{Fields, Line};

// The gate of a record's nets, the inputs and last the output.
fn gate_of(kind: GateKind, nets: &[Net<'_>]) -> LogicGate
    requires some { 0 < length nets.now }
    requires few { length nets.now ≤ 9 }
    ensures { gate_held result ≡ gate_from kind (values (nets_shown nets.now)) }
{
    let Some((output, others)) = nets.split_last() else {
        unreachable!()
    };
    let mut inputs = [0; INPUTS];
    for (i, net) in others.iter().enumerate() {
        inputs[i] = net.value;
    }
    LogicGate {
        kind,
        inputs,
        count: others.len(),
        output: output.value,
    }
}

impl Gates {
    // Whether a gate has the net as its output.
    fn drive(&self, net: u8) -> bool
        ensures { result ≡ driven (gates_of self.now) net }
    {
        self.gates.iter().any(|gate| net == gate.output)
    }

    // Whether a net is a rail, an IN or a gate's output.
    fn know(&self, ins: &[u8], net: u8) -> bool
        ensures { result ≡ is_known ins.now (gates_of self.now) net }
    {
        is_rail(net) || ins.contains(&net) || self.drive(net)
    }

    // The place of the first net that is not allowed: inputs are known, and the output, the last, is not.
    fn barred(&self, ins: &[u8], nets: &[Net<'_>]) -> Option<usize>
        ensures { result ≡ gate_barred ins.now (gates_of self.now) (nets_shown nets.now) }
    {
        let (output, inputs) = nets.split_last()?;
        if let Some(input) = inputs.iter().find(|input| !self.know(ins, input.value)) {
            return Some(input.field.place);
        }
        self.know(ins, output.value).then_some(output.field.place)
    }
}

impl<'a> Body<'a> for Gates {
    type Kind = GateKind;

    type Record = GateRecord<'a>;

    ghost Item = { Gate };

    ghost format = { intended_format };

    ghost items = { gates_of };

    ghost shown = { gate_shown };

    ghost Kept = { λ _ _. Unit {0} };

    fn new(heap: Global) -> Result<Gates, AllocError>
        ensures { IfOk result (λ b. gates_of b ≡ []) }
    {
        let gates = Vec::with_capacity(heap, MOST)?;
        Ok(Gates { gates })
    }

    fn count(&self) -> usize
        ensures { result ≡ length (gates_of self.now) }
    {
        self.gates.len()
    }

    fn kind(bytes: &[u8]) -> Option<GateKind>
        ensures { result ≡ looked gate_word gate_kinds bytes.now }
    {
        kind_of(bytes)
    }

    fn read(line: &Line<'a>, kind: GateKind, fields: Fields<'a>) -> Result<GateRecord<'a>, Fault> {
        read_gate(line, kind, fields)
    }

    fn clear(&mut self)
        ensures { gates_of self.new ≡ [] }
    {
        self.gates.clear();
    }

    fn add(&mut self, ins: &[u8], item: &GateRecord<'a>, line: &Line<'a>) -> Result<(), Fault> {
        if self.gates.len() >= MOST {
            return Err(line.fault(Reason::TooManyRecords));
        }
        let nets = item.nets.as_slice();
        if let Some(place) = self.barred(ins, nets) {
            return Err(line.fault_at(Reason::NetNotAllowed, place));
        }
        self.gates.push_reserved(gate_of(item.kind, nets));
        Ok(())
    }

    // Each OUT has a gate.
    fn close(&mut self, _ins: &[u8], outs: &[u8], line: &Line<'a>) -> Result<(), Fault> {
        if outs.iter().all(|&out| self.drive(out)) {
            Ok(())
        } else {
            Err(line.fault(Reason::OutputWithoutGate))
        }
    }
}
