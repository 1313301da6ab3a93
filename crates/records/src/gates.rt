// The body records of an intended file.
ghost use Rattle.std.specs.Prelude.{◌≡◌, ◌+◌, ◌<◌, ◌≤◌, [], ◌∷◌, ◌++◌, length};
ghost use Rattle.text.specs.Outcomes.{map_ok};
ghost use Rattle.text.specs.Fields.{fields_left};
ghost use Rattle.records.specs.Kinds.{gate_kinds, gate_word, gate_takes};
ghost use Rattle.records.specs.Records.{nets_at, nets_counted};
ghost use Rattle.records.specs.Shown.{nets_listed, nets_shown, gate_shown};

use crate::fields::read_net;
use crate::words::Spelled;
use crate::{GateRecord, NETS, Net, Nets};
use cell::GateKind;
use text::fault::{Fault, Reason};
use text::lines::{Fields, Line};

static KINDS: [GateKind; 8] = [
    GateKind::Not,
    GateKind::Buf,
    GateKind::And,
    GateKind::Or,
    GateKind::Nand,
    GateKind::Nor,
    GateKind::Xor,
    GateKind::Xnor,
];

impl Spelled for GateKind {
    ghost kinds = { gate_kinds };

    ghost spelling = { gate_word };

    fn all() -> &'static [GateKind] {
        &KINDS
    }

    fn word(self) -> &'static [u8] {
        match self {
            GateKind::Not => b"NOT",
            GateKind::Buf => b"BUF",
            GateKind::And => b"AND",
            GateKind::Or => b"OR",
            GateKind::Nand => b"NAND",
            GateKind::Nor => b"NOR",
            GateKind::Xor => b"XOR",
            GateKind::Xnor => b"XNOR",
        }
    }
}

impl<'a> Nets<'a> {
    fn new() -> Nets<'a>
        ensures { nets_listed result ≡ [] }
    {
        Nets {
            at: [Net::default(); NETS],
            count: 0,
        }
    }

    fn push(&mut self, net: Net<'a>)
        requires { self.old.count < 9 }
        ensures nets { nets_listed self.new ≡ nets_listed self.old ++ net.entry ∷ [] }
        ensures count { self.new.count ≡ self.old.count + 1 }
    {
        self.at[self.count] = net;
        self.count += 1;
    }

    pub fn as_slice(&self) -> &[Net<'a>]
        ensures nets { result.now ≡ nets_listed self.now }
        ensures few { length result.now ≤ 9 }
    {
        &self.at[..self.count]
    }
}

// Whether a gate may have so many nets, its inputs and its output.
fn takes(kind: GateKind, count: usize) -> bool
    ensures { result ≡ gate_takes kind count }
{
    match kind {
        GateKind::Not | GateKind::Buf => count == 2,
        GateKind::Xor | GateKind::Xnor => count == 3,
        GateKind::And | GateKind::Or | GateKind::Nand | GateKind::Nor => count >= 3 && count <= 9,
    }
}

// The fields as nets; the first that is none declines.
fn read_nets<'a>(line: &Line<'a>, fields: Fields<'a>) -> Result<Nets<'a>, Fault>
    requires { length (fields_left fields) ≤ 9 }
    ensures { map_ok (λ xs. nets_shown (nets_listed xs)) result ≡ nets_at line.now.number (fields_left fields.entry) }
{
    let mut nets = Nets::new();
    for field in fields {
        nets.push(read_net(line, field)?);
    }
    Ok(nets)
}

pub fn read_gate<'a>(
    line: &Line<'a>,
    kind: GateKind,
    fields: Fields<'a>,
) -> Result<GateRecord<'a>, Fault>
    ensures { map_ok gate_shown result ≡ map_ok (λ xs. (kind, xs)) (nets_counted (gate_takes kind) line.now.number line.now.start (fields_left fields.entry)) }
{
    if !takes(kind, fields.count()) {
        return Err(line.fault(Reason::FieldCount));
    }
    Ok(GateRecord {
        kind,
        line: *line,
        nets: read_nets(line, fields)?,
    })
}
