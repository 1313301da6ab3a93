// A circuit that may be held, and a spare one that a text is read into.
ghost use Rattle.std.specs.Prelude.{◌≡◌, true, false, IfOk, MatchOption, OnErr, OnOk};
ghost use Rattle.netlist.specs.Circuits.{circuit_of};
ghost use Rattle.station.specs.Slots.{holds, nothing, ReadsInto};

use netlist::netlist::Netlist;
use netlist::reading::read;
use reader::body::Body;
use std::alloc::{AllocError, Global};
use text::fault::Fault;

#[derive(Debug, Drop)]
pub struct Slot<B> {
    // A flag and no `Option` around the circuit: what is held no more leaves its room for the readings to come.
    held: bool,
    pub(crate) current: Netlist<B>,
    spare: Netlist<B>,
}

impl<'a, B: Body<'a>> Slot<B> {
    // Nothing is held, and two circuits are the room for what will be.
    pub(crate) fn new(heap: Global) -> Result<Slot<B>, AllocError>
    where
        B: Drop,
        ensures { IfOk result (λ s. holds B.Body.items s ≡ nothing) }
    {
        Ok(Slot {
            held: false,
            current: Netlist::new(B::new(heap)?),
            spare: Netlist::new(B::new(heap)?),
        })
    }

    // The circuit that is held.
    pub(crate) fn circuit(&self) -> Option<&Netlist<B>>
        ensures { MatchOption result (self.now.held ≡ false) (λ c. (self.now.held ≡ true) × (c.now ≡ self.now.current)) }
    {
        self.held.then_some(&self.current)
    }

    // Reads a text into the spare circuit, which is held from then on; the number of its IN. A decline changes nothing held.
    pub(crate) fn read(&mut self, text: &'a [u8]) -> Result<usize, Fault>
        ensures gives { ReadsInto B.Body.format text.now (holds B.Body.items self.old) result (holds B.Body.items self.new) }
        ensures kept { OnOk result (B.Body.Kept self.new.current.body (circuit_of B.Body.items self.new.current)) }
        ensures same { OnErr result (self.new.current ≡ self.old.current) }
        ensures still { OnErr result (self.new.held ≡ self.old.held) }
    {
        read(text, &mut self.spare)?;
        std::mem::swap(&mut self.current, &mut self.spare);
        self.held = true;
        Ok(self.current.ins().len())
    }

    pub(crate) fn wipe(&mut self)
        ensures { holds B.Body.items self.new ≡ nothing }
    {
        self.held = false;
    }
}
