// Components get their places in rounds: in each, those that wait for none without a place.
ghost use Rattle.std.specs.Prelude.{◌≡◌, ℕ, ◌+◌, ◌<◌, ◌≤◌, true, false, [], ◌∷◌, ◌++◌, length, ◌⊎◌, Some, Decides};
ghost use Rattle.std.specs.Option.{ForSome};
ghost use Rattle.order.specs.Components.{EachDrawn, Labelled};
ghost use Rattle.order.specs.Placing.{nets_with, marked, Unplaced, Pending, Blocked, Stuck, nets_in, sizes_in, ArrangedIn, Complete, Ringed, OthersAlone};

use super::Order;
use crate::NETS;
use crate::labels::Labels;
use cell::{Device, DeviceList};

// The components of a drawn circuit, told by the labels of its nets, and which of them have their place.
#[derive(Clone, Copy, Debug)]
pub(super) struct Placing<'a> {
    labels: Labels,
    devices: &'a [Device],
    placed: [bool; NETS],
    // Which have more nets than the one whose number is the label.
    shared: [bool; NETS],
}

// Marks a component, if there is one.
fn mark(table: &mut [bool; NETS], label: Option<u8>)
    requires { ForSome label (λ l. l ≤ 127) }
    ensures { (l : ℕ) → Decides (marked table.new l) ((label ≡ Some l) ⊎ (marked table.old l ≡ true)) }
{
    if let Some(label) = label {
        table[usize::from(label)] = true;
    }
}

// Marks each component with more nets than the one whose number is the label.
fn shared(labels: &Labels) -> [bool; NETS]
    ensures { OthersAlone labels.now result }
{
    let mut shared = [false; NETS];
    // The number is itself compared with the label.
    for net in 0..NETS as u8 {
        let label = labels.of(net);
        if label != Some(net) {
            mark(&mut shared, label);
        }
    }
    shared
}

impl<'a> Placing<'a> {
    // No component has its place.
    pub(super) fn new(ins: &[u8], devices: DeviceList<'a>) -> Placing<'a>
        ensures devices { result.devices.now ≡ devices.entry.devices.now }
        ensures labels { EachDrawn ins.now devices.entry.devices.now (λ c. Labelled c c.body result.labels) }
        ensures placed { (label : ℕ) → marked result.placed label ≡ false }
        ensures shared { OthersAlone result.labels result.shared }
    {
        let labels = Labels::new(ins, devices);
        let shared = shared(&labels);
        Placing {
            labels,
            devices: devices.devices,
            placed: [false; NETS],
            shared,
        }
    }

    // Whether a component has the label and no place yet.
    fn is_unplaced(&self, label: u8) -> bool
        requires { label ≤ 127 }
        ensures { Decides result (Unplaced self.now.labels self.now.placed label) }
    {
        self.labels.of(label) == Some(label) && !self.placed[usize::from(label)]
    }

    // Whether the gate of a device is in a component without a place.
    fn is_pending(&self, device: &Device) -> bool
        ensures { Decides result (Pending self.now.labels self.now.placed device.now) }
    {
        // A `match`: of a closure that reads the table nothing would be known.
        match self.labels.of(device.gate) {
            Some(gate) => !self.placed[usize::from(gate)],
            None => false,
        }
    }

    // Marks each component that waits for one without a place.
    fn blocked(&self) -> [bool; NETS]
        ensures { (label : ℕ) → Decides (marked result label) (Blocked self.now.labels self.now.devices.now self.now.placed label) }
    {
        let mut blocked = [false; NETS];
        for device in self.devices {
            if self.is_pending(device) {
                mark(&mut blocked, self.labels.of(device.left));
                mark(&mut blocked, self.labels.of(device.right));
            }
        }
        blocked
    }

    // Whether every component has its place.
    fn is_complete(&self) -> bool
        ensures yes { result ≡ true → (label : ℕ) → Unplaced self.now.labels self.now.placed label → ⊥ }
        ensures not { result ≡ false → (label : ℕ) × Unplaced self.now.labels self.now.placed label }
    {
        // A loop: what `all` asks of each number, that it is a net's, its closure does not know.
        for label in 0..NETS as u8 {
            if self.is_unplaced(label) {
                return false;
            }
        }
        true
    }
}

impl Order {
    // The nets with the label become the next component of the order.
    fn place_nets(&mut self, labels: &Labels, label: u8)
        requires nets { length (nets_in self.old) + length (nets_with labels.now label) ≤ 128 }
        requires sizes { length (sizes_in self.old) < 128 }
        ensures nets { nets_in self.new ≡ nets_in self.old ++ nets_with labels.now label }
        ensures sizes { sizes_in self.new ≡ sizes_in self.old ++ length (nets_with labels.now label) ∷ [] }
    {
        let mut size = 0;
        // The number is itself what is put into the order.
        for net in 0..NETS as u8 {
            if labels.of(net) == Some(label) {
                self.nets.push_reserved(net);
                size += 1;
            }
        }
        self.sizes.push_reserved(size);
    }

    // One net becomes the next component.
    fn place_net(&mut self, net: u8)
        requires number { net ≤ 127 }
        requires nets { length (nets_in self.old) < 128 }
        requires sizes { length (sizes_in self.old) < 128 }
        ensures nets { nets_in self.new ≡ nets_in self.old ++ net ∷ [] }
        ensures sizes { sizes_in self.new ≡ sizes_in self.old ++ 1 ∷ [] }
    {
        self.nets.push_reserved(net);
        self.sizes.push_reserved(1);
    }

    // The component with a label becomes the next. Most have one net, and no other is looked for.
    fn place(&mut self, labels: &Labels, shared: bool, label: u8)
        requires number { label ≤ 127 }
        requires alone { shared ≡ false → nets_with labels.now label ≡ label ∷ [] }
        requires nets { length (nets_in self.old) + length (nets_with labels.now label) ≤ 128 }
        requires sizes { length (sizes_in self.old) < 128 }
        ensures nets { nets_in self.new ≡ nets_in self.old ++ nets_with labels.now label }
        ensures sizes { sizes_in self.new ≡ sizes_in self.old ++ length (nets_with labels.now label) ∷ [] }
    {
        if shared {
            self.place_nets(labels, label);
        } else {
            self.place_net(label);
        }
    }

    // One round: each component that waits for none without a place gets its own. Says whether there was one.
    fn place_round(&mut self, placing: &mut Placing) -> bool
        requires arranged { ArrangedIn placing.old.labels placing.old.devices.now placing.old.placed self.old }
        requires shared { OthersAlone placing.old.labels placing.old.shared }
        ensures labels { placing.new.labels ≡ placing.old.labels }
        ensures shared { placing.new.shared ≡ placing.old.shared }
        ensures devices { placing.new.devices.now ≡ placing.old.devices.now }
        ensures arranged { ArrangedIn placing.old.labels placing.old.devices.now placing.new.placed self.new }
        ensures more { result ≡ true → length (sizes_in self.old) < length (sizes_in self.new) }
        ensures stuck { result ≡ false → Stuck placing.old.labels placing.old.devices.now placing.new.placed }
    {
        let blocked = placing.blocked();
        let mut any = false;
        // The number is itself the label, and looked up in each table.
        for label in 0..NETS as u8 {
            if placing.is_unplaced(label) && !blocked[usize::from(label)] {
                self.place(&placing.labels, placing.shared[usize::from(label)], label);
                placing.placed[usize::from(label)] = true;
                any = true;
            }
        }
        any
    }

    // Places components while there is one that can be, and says whether all of them found a place.
    pub(super) fn place_all(&mut self, mut placing: Placing) -> bool
        requires placed { (label : ℕ) → marked placing.placed label ≡ false }
        requires shared { OthersAlone placing.labels placing.shared }
        ensures yes { result ≡ true → Complete placing.entry.labels placing.entry.devices.now self.new }
        ensures not { result ≡ false → Ringed placing.entry.labels placing.entry.devices.now }
    {
        self.nets.clear();
        self.sizes.clear();
        while self.place_round(&mut placing) {}
        placing.is_complete()
    }
}
