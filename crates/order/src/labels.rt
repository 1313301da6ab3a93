// Labels that tell the components of a drawn circuit apart: inner nets have the same label exactly when devices link them
// through inner nets.
ghost use Rattle.std.specs.Prelude.{◌≡◌, ℕ, ◌<◌, ◌≤◌, ◌⊎◌, List, [], length, All, Decides};
ghost use Rattle.std.specs.Option.{ForSome};
ghost use Rattle.cell.specs.declared.Device.{Device};
ghost use Rattle.cell.specs.Lists.{In};
ghost use Rattle.order.specs.Labels.{renamed, renumbered};

use crate::NETS;
use cell::{Device, DeviceList, is_rail};

// The label of each inner net, the number of a net of its component. A source is in no component, and its number tells nothing. The two
// stand apart, and not as options, so that the numbers of many nets are renamed at a time.
#[derive(Clone, Copy, Debug, PartialEq, Eq)]
pub(crate) struct Labels {
    numbers: [u8; NETS],
    inner: [bool; NETS],
    ghost low: { All (λ number. number ≤ 127) numbers },
    ghost long: { length numbers ≡ 128 },
    ghost wide: { length inner ≡ 128 },
}

// Rails and inputs are sources.
fn is_source(net: u8, ins: &[u8]) -> bool
    ensures { Decides result ((net < 2) ⊎ In net ins.now) }
{
    is_rail(net) || ins.contains(&net)
}

// A number where `from` becomes `to`.
fn renumbered(number: u8, from: u8, to: u8) -> u8
    ensures { result ≡ renumbered from to number }
{
    if number == from { to } else { number }
}

impl Labels {
    ghost use Rattle.order.specs.Components.{EachDrawn, Labelled, Joins, label_of};

    // Each inner net is labelled by its own number, as if it were a component alone.
    fn own(ins: &[u8]) -> Labels
        ensures { (devices : List Device) → EachDrawn ins.now devices (λ c. Labelled c [] result) }
    {
        let mut numbers = [0; NETS];
        let mut inner = [false; NETS];
        // The number is itself the label.
        for net in 0..NETS as u8 {
            numbers[usize::from(net)] = net;
            inner[usize::from(net)] = !is_source(net, ins);
        }
        Labels { numbers, inner }
    }

    // The label of a net.
    pub(crate) fn of(&self, net: u8) -> Option<u8>
        ensures label { result ≡ label_of self.now net }
        ensures number { ForSome result (λ label. label ≤ 127) }
    {
        let net = usize::from(net);
        if net < NETS && self.inner[net] {
            Some(self.numbers[net])
        } else {
            None
        }
    }

    // One component is joined to another: its nets take the other's label.
    fn rename(&mut self, from: u8, to: u8)
        requires { to ≤ 127 }
        ensures { (x : ℕ) → label_of self.new x ≡ renamed from to (label_of self.old x) }
    {
        for number in &mut self.numbers {
            *number = renumbered(*number, from, to);
        }
    }

    // The ends of a device get one label where both are inner.
    fn join(&mut self, device: &Device)
        ensures { Joins device.now self.old self.new }
    {
        let Some(left) = self.of(device.left) else {
            return;
        };
        let Some(right) = self.of(device.right) else {
            return;
        };
        // Once for each two components that are joined: ends with one label need none.
        if left != right {
            self.rename(left, right);
        }
    }

    // Inner nets linked by the devices get one label.
    pub(crate) fn new(ins: &[u8], devices: DeviceList) -> Labels
        ensures { EachDrawn ins.now devices.entry.devices.now (λ c. Labelled c c.body result) }
    {
        let mut labels = Labels::own(ins);
        for device in devices.devices {
            labels.join(device);
        }
        labels
    }
}
