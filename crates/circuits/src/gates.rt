// The gates of an intended circuit.
ghost use Rattle.std.specs.Prelude.{◌≤◌, vec_capacity};

use cell::GateKind;

pub mod body;

// The most gates of a file. Their table is large, so it lies on the heap, all of it from the start.
const MOST: usize = 64;

// The most inputs of a gate.
const INPUTS: usize = 8;

// A gate: its kind, its inputs, which are the first of a table, and its output. A count beside an array, since a gate is copied and a
// list of the kit's is not.
#[derive(Clone, Copy, Debug, PartialEq, Eq)]
pub struct LogicGate {
    pub kind: GateKind,
    pub inputs: [u8; INPUTS],
    pub count: usize,
    pub output: u8,
}

// Beside `Devices`, and no one list of both kinds: those keep an order and a fact of their nets as well.
#[derive(Debug, Drop)]
pub struct Gates {
    gates: Vec<LogicGate>,
    ghost room: { 64 ≤ vec_capacity gates },
}
