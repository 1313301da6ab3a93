// The record layer: record words, net numbers and names, and the records that a line can be. A record borrows its fields
// from the text and shows each with its place, counted in bytes from 0.
#![tactic(auto)]

ghost use Rattle.std.specs.Prelude.{◌≡◌, ◌≤◌, length};

use cell::{DeviceKind, GateKind};
use text::lines::{Field, Line};

pub mod devices;
pub mod fields;
pub mod gates;
pub mod words;

// What was read last.
#[derive(Clone, Copy, Debug, PartialEq, Eq)]
pub enum Stage {
    Opening,
    Inputs,
    Outputs,
    Body,
    Closed,
}

// The record words; a body record has a kind.
#[derive(Clone, Copy, Debug, PartialEq, Eq)]
pub enum Word<K> {
    Cell,
    In,
    Out,
    Item(K),
    End,
}

// A net number: its field, and its value.
#[derive(Clone, Copy, Debug, Default, PartialEq, Eq)]
pub struct Net<'a> {
    pub field: Field<'a>,
    pub value: u8,
}

#[derive(Clone, Copy, Debug, PartialEq, Eq)]
pub struct DeviceRecord<'a> {
    pub kind: DeviceKind,
    pub gate: Net<'a>,
    pub left: Net<'a>,
    pub right: Net<'a>,
}

// The most nets of a record.
pub const NETS: usize = 9;

// The nets of a record. A count beside an array, since a record is copied and a list of the kit's is not.
#[derive(Clone, Copy, Debug, PartialEq, Eq)]
pub struct Nets<'a> {
    at: [Net<'a>; NETS],
    count: usize,
    ghost few: { count ≤ 9 },
    ghost full: { length at ≡ 9 },
}

// A gate: the line it borrows, and its nets there, the inputs and last the output.
#[derive(Clone, Copy, Debug, PartialEq, Eq)]
pub struct GateRecord<'a> {
    pub kind: GateKind,
    pub line: Line<'a>,
    pub nets: Nets<'a>,
}

// A record of either file; B is the body's.
#[derive(Clone, Copy, Debug, Drop, PartialEq, Eq)]
pub enum Record<'a, B> {
    Cell(Field<'a>),
    In(Net<'a>),
    Out(Net<'a>),
    Item(B),
    End,
}
