// A station holds at most two circuits. All memory is taken when it is opened.
ghost use Rattle.station.specs.Sound.{Sound};

use crate::slot::Slot;
use circuits::devices::Devices;
use circuits::gates::Gates;

pub mod calls;
pub mod probe;

#[derive(Debug, Drop)]
pub struct Station {
    drawn: Slot<Devices>,
    intended: Slot<Gates>,
    ghost sound: { ∥ Sound drawn ∥₁ },
}

// How much two circuits have; the ports are those of the drawn one.
#[derive(Clone, Copy, Debug, PartialEq, Eq)]
pub struct Summary {
    pub ins: usize,
    pub outs: usize,
    pub devices: usize,
    pub gates: usize,
}
