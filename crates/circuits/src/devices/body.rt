ghost use Rattle.std.specs.Prelude.{◌≡◌, [], length, IfOk};
ghost use Rattle.cell.specs.declared.Device.{Device};
ghost use Rattle.cell.specs.Lists.{Every};
ghost use Rattle.cell.specs.Circuits.{device_nets, Numbered};
ghost use Rattle.records.specs.Kinds.{device_kinds, device_word};
ghost use Rattle.records.specs.Records.{looked};
ghost use Rattle.records.specs.Shown.{device_shown};
ghost use Rattle.files.specs.Files.{drawn_format};
ghost use Rattle.circuits.specs.Bodies.{devices_of, Ordered};

use super::{Devices, MOST};
use cell::{Device, DeviceKind, DeviceList};
use order::order::Order;
use reader::body::Body;
use records::DeviceRecord;
use records::devices::read_device;
use records::words::kind_of;
use std::alloc::{AllocError, Global};
use text::fault::{Fault, Reason};
use text::lines::{Fields, Line};

impl Devices {
    // The devices, as a list whose nets are known to be net numbers.
    pub fn list(&self) -> DeviceList<'_>
        ensures { result.devices.now ≡ devices_of self.now }
    {
        DeviceList {
            devices: &self.devices,
        }
    }

    pub fn as_slice(&self) -> &[Device]
        ensures items { result.now ≡ devices_of self.now }
        ensures numbered { Every (λ d. Numbered (device_nets d)) result.now }
    {
        &self.devices
    }

    // The order in which the components can be evaluated.
    pub fn order(&self) -> &Order
        ensures { result.now ≡ self.now.order }
    {
        &self.order
    }
}

impl<'a> Body<'a> for Devices {
    type Kind = DeviceKind;

    type Record = DeviceRecord<'a>;

    ghost Item = { Device };

    ghost format = { drawn_format };

    ghost items = { devices_of };

    ghost shown = { device_shown };

    ghost Kept = { Ordered };

    fn new(heap: Global) -> Result<Devices, AllocError>
        ensures { IfOk result (λ b. devices_of b ≡ []) }
    {
        let devices = Vec::with_capacity(heap, MOST)?;
        let order = Order::new(heap)?;
        Ok(Devices { devices, order })
    }

    fn count(&self) -> usize
        ensures { result ≡ length (devices_of self.now) }
    {
        self.devices.len()
    }

    fn kind(bytes: &[u8]) -> Option<DeviceKind>
        ensures { result ≡ looked device_word device_kinds bytes.now }
    {
        kind_of(bytes)
    }

    fn read(
        line: &Line<'a>,
        kind: DeviceKind,
        fields: Fields<'a>,
    ) -> Result<DeviceRecord<'a>, Fault> {
        read_device(line, kind, fields)
    }

    fn clear(&mut self)
        ensures { devices_of self.new ≡ [] }
    {
        self.devices.clear();
    }

    // Any net may be a gate net or an end.
    fn add(&mut self, _ins: &[u8], item: &DeviceRecord<'a>, line: &Line<'a>) -> Result<(), Fault> {
        if self.devices.len() >= MOST {
            return Err(line.fault(Reason::TooManyRecords));
        }
        self.devices.push_reserved(Device {
            kind: item.kind,
            gate: item.gate.value,
            left: item.left.value,
            right: item.right.value,
        });
        Ok(())
    }

    // The components can be evaluated one after another, and none is too large.
    fn close(&mut self, ins: &[u8], _outs: &[u8], line: &Line<'a>) -> Result<(), Fault> {
        let devices = DeviceList {
            devices: &self.devices,
        };
        // No `map_err`: it would tell nothing of the decline, since its closure would hold the line.
        if let Err(obstacle) = self.order.find(ins, devices) {
            return Err(line.fault(obstacle.into()));
        }
        Ok(())
    }
}
