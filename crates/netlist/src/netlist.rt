// A circuit as its records gather: its name and ports, as many as a file may have, and its body.
use arrayvec::ArrayVec;
use records::fields::NAME;

pub mod gather;

// The most IN records of a file, and the most OUT records.
pub(crate) const PORTS: usize = 16;

#[derive(Debug, Drop)]
pub struct Netlist<B> {
    pub(crate) name: ArrayVec<u8, NAME>,
    pub(crate) ins: ArrayVec<u8, PORTS>,
    pub(crate) outs: ArrayVec<u8, PORTS>,
    pub body: B,
}
