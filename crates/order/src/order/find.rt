ghost use Rattle.std.specs.Prelude.{◌≡◌, ℕ, true, false, List, [], IfOk};
ghost use Rattle.order.specs.Placing.{sizes_in, SomeLarge, NoneLarge};
ghost use Rattle.order.specs.Found.{order_of, Found};

use super::Order;
use super::rounds::Placing;
use crate::{NETS, Obstacle};
use cell::DeviceList;
use std::alloc::{AllocError, Global};

// A component may have so many nets and no more.
const LARGEST: u8 = 24;

impl Order {
    // There is room for every net, each in a component of its own.
    pub fn new(heap: Global) -> Result<Order, AllocError>
        ensures { IfOk result (λ o. order_of o ≡ []) }
    {
        let nets = Vec::with_capacity(heap, NETS)?;
        let sizes = Vec::with_capacity(heap, NETS)?;
        Ok(Order { nets, sizes })
    }

    // Whether a component has more nets than may be evaluated.
    fn has_large(&self) -> bool
        ensures yes { result ≡ true → SomeLarge (sizes_in self.now) }
        ensures not { result ≡ false → NoneLarge (sizes_in self.now) }
    {
        self.sizes.iter().any(|&size| size > LARGEST)
    }

    // Finds an order of the components, each after those that it waits for, or says why there is none to evaluate.
    pub fn find(&mut self, ins: &[u8], devices: DeviceList) -> Result<(), Obstacle>
        ensures { (name outs : List ℕ) → Found (record { name = name; ins = ins.now; outs = outs; body = devices.entry.devices.now }) (order_of self.new) result }
    {
        if !self.place_all(Placing::new(ins, devices)) {
            return Err(Obstacle::WaitingRing);
        }
        if self.has_large() {
            return Err(Obstacle::LargeComponent);
        }
        Ok(())
    }
}
