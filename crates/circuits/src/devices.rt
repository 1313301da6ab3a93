// The devices of a drawn circuit and the order in which its components can be evaluated.
ghost use Rattle.std.specs.Prelude.{◌≤◌, All, vec_capacity};
ghost use Rattle.cell.specs.Circuits.{OnNets};

use cell::Device;
use order::order::Order;

pub mod body;

// The most devices of a file. Their table is large, so it lies on the heap, all of it from the start.
const MOST: usize = 256;

#[derive(Debug, Drop)]
pub struct Devices {
    devices: Vec<Device>,
    order: Order,
    ghost room: { 256 ≤ vec_capacity devices },
    ghost numbered: { All OnNets devices.items },
}
