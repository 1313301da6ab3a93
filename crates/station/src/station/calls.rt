// Opening a station, reading into it, and wiping it.
ghost use Rattle.std.specs.Prelude.{◌≡◌, IfOk, Some, OnErr, OnOk};
ghost use Rattle.cell.specs.Circuits.{Drawn};
ghost use Rattle.cell.specs.Waiting.{EvaluationOrder};
ghost use Rattle.files.specs.Files.{drawn_format, intended_format};
ghost use Rattle.files.specs.Lawful.{ReadExactly, ReadOneWay};
ghost use Rattle.station.specs.Slots.{ReadsInto, DoneExactly};
ghost use Rattle.netlist.specs.Circuits.{circuit_of};
ghost use Rattle.circuits.specs.Bodies.{devices_of, gates_of};
ghost use Rattle.station.specs.Stations.{held, kept_order, empty, summed, PairRead, OutsOf};

use super::{Station, Summary};
use crate::report::{Decline, Origin};
use crate::slot::Slot;
use reader::body::Body;
use std::alloc::{AllocError, Global};
use text::fault::Fault;

impl Station {
    // A station that holds nothing.
    pub fn open(heap: Global) -> Result<Station, AllocError>
        ensures { IfOk result (λ s. held s ≡ empty) }
    {
        let drawn = Slot::new(heap)?;
        let intended = Slot::new(heap)?;
        Ok(Station { drawn, intended })
    }

    // Two calls of a line each, since a user says which of the two texts it is, and only a drawn circuit has an order.

    // Reads a drawn circuit in place of the held one, with an order in which its components can be evaluated.
    pub fn read_drawn(&mut self, text: &[u8]) -> Result<usize, Fault>
        ensures gives { ReadsInto drawn_format text.now (held self.old).drawn result (held self.new).drawn }
        ensures other { (held self.new).intended ≡ (held self.old).intended }
        ensures order { OnOk result ((c : Drawn) → (held self.new).drawn ≡ Some c → EvaluationOrder c (kept_order self.new)) }
        ensures same_order { OnErr result (kept_order self.new ≡ kept_order self.old) }
        ensures law { DoneExactly drawn_format text.now result (held self.new).drawn }
        ensures exactly { ReadExactly drawn_format text.now }
        ensures one_way { ReadOneWay drawn_format text.now }
    {
        self.drawn.read(text)
    }

    // Reads an intended circuit in place of the held one.
    pub fn read_intended(&mut self, text: &[u8]) -> Result<usize, Fault>
        ensures gives { ReadsInto intended_format text.now (held self.old).intended result (held self.new).intended }
        ensures other { (held self.new).drawn ≡ (held self.old).drawn }
        ensures same_order { kept_order self.new ≡ kept_order self.old }
        ensures law { DoneExactly intended_format text.now result (held self.new).intended }
        ensures exactly { ReadExactly intended_format text.now }
        ensures one_way { ReadOneWay intended_format text.now }
    {
        self.intended.read(text)
    }

    // Nothing is held any more.
    pub fn wipe(&mut self)
        ensures { held self.new ≡ empty }
    {
        self.drawn.wipe();
        self.intended.wipe();
    }

    // The OUT nets of the drawn circuit that is held.
    pub fn outs(&self) -> Option<&[u8]>
        ensures { OutsOf (held self.now).drawn result }
    {
        Some(self.drawn.circuit()?.outs())
    }

    // How much the two circuits have.
    fn summary(&self) -> Summary
        ensures { result ≡ summed (circuit_of devices_of self.now.drawn.current) (circuit_of gates_of self.now.intended.current) }
    {
        let drawn = &self.drawn.current;
        Summary {
            ins: drawn.ins().len(),
            outs: drawn.outs().len(),
            devices: drawn.body.count(),
            gates: self.intended.current.body.count(),
        }
    }

    // Reads both texts, the drawn one first; the first decline is the answer.
    pub fn read_pair(&mut self, drawn: &[u8], intended: &[u8]) -> Result<Summary, Decline>
        ensures { PairRead drawn.now intended.now (held self.old) result (held self.new) }
    {
        self.read_drawn(drawn).map_err(|fault| Decline {
            origin: Origin::Drawn,
            fault,
        })?;
        self.read_intended(intended).map_err(|fault| Decline {
            origin: Origin::Intended,
            fault,
        })?;
        Ok(self.summary())
    }
}
