// The types of a cell, and what its parts mean (specs/).
#![tactic(auto)]

ghost use Rattle.std.specs.Prelude.{◌<◌, ◌↔◌, All, IsTrue};
ghost use Rattle.cell.specs.Circuits.{OnNets};

#[derive(Clone, Copy, Debug, PartialEq, Eq)]
pub enum DeviceKind {
    N,
    P,
}

// A transistor: its kind, its gate net and its two channel ends.
#[derive(Clone, Copy, Debug, PartialEq, Eq)]
pub struct Device {
    pub kind: DeviceKind,
    pub gate: u8,
    pub left: u8,
    pub right: u8,
}

// Devices on nets from 0 to 127.
#[derive(Clone, Copy, Debug)]
pub struct DeviceList<'a> {
    pub devices: &'a [Device],
    pub ghost numbered: { All OnNets devices.now },
}

#[derive(Clone, Copy, Debug, PartialEq, Eq)]
pub enum GateKind {
    Not,
    Buf,
    And,
    Or,
    Nand,
    Nor,
    Xor,
    Xnor,
}

// What a net is: whether it may be 0 and whether it may be 1. Under one setting these signs are bits, over many settings
// they are whatever an algebra uses for a bit at each of them.
#[derive(Clone, Copy, Debug, Default, PartialEq, Eq)]
pub struct State<S> {
    pub may0: S,
    pub may1: S,
}

// Net 0 is ground and net 1 is supply.
pub fn is_rail(net: u8) -> bool
    ensures { IsTrue result ↔ (net < 2) }
{
    net < 2
}
