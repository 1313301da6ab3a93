// The state of a net under one setting, or under those of a block.
ghost use Rattle.std.specs.Prelude.{◌≡◌, ◌≤◌, true, length, MatchResult};
ghost use Rattle.cell.specs.Laws.{OneAssignment, NeverNeither, LooseIsUnknown};
ghost use Rattle.netlist.specs.Circuits.{circuit_of};
ghost use Rattle.circuits.specs.Bodies.{devices_of};
ghost use Rattle.station.specs.Stations.{held};
ghost use Rattle.station.specs.Probes.{Looked, Probed, Surveyed, Read};

use super::Station;
use algebra::block::Block;
use algebra::point::Point;
use algebra::{ChainAlgebra, Declined, Sample, SignalAlgebra};
use cell::State;
use forming::states::form_states;
use forming::work::WorkTable;
use text::fault::{Fault, Reason};

// The fewest signs that a work table may have.
pub const WORK: usize = 2048;

// The last net number.
const LAST_NET: u8 = 127;

impl Station {
    // The state of a net of the drawn circuit over an algebra, at each setting that it lists. That the byte is a net's, `look` has tested.
    fn state_over<A: SignalAlgebra>(
        &self,
        alg: &mut A,
        net: u8,
        signs: &mut [A::Sign],
    ) -> Result<State<A::Sign>, Declined>
        requires held { self.now.drawn.held ≡ true }
        requires net { net ≤ 127 }
        requires signs { 2048 ≤ length signs.old }
        requires inputs { (A.ChainAlgebra.meaning alg.old).inputs ≡ length (circuit_of devices_of self.now.drawn.current).ins }
        ensures { MatchResult result (Read A.ChainAlgebra.bit (A.ChainAlgebra.meaning alg.old) (A.ChainAlgebra.meaning alg.new) (circuit_of devices_of self.now.drawn.current) net) (λ _. (A.ChainAlgebra.meaning alg.new).spent ≡ true) }
    {
        let circuit = &self.drawn.current;
        let devices = circuit.body.list();
        let order = circuit.body.order();
        let mut work = WorkTable::new(signs);
        form_states(alg, circuit.ins(), devices, order, &mut work)?;
        Ok(work.states.at(net))
    }

    // The state of a net of the drawn circuit over the algebra with a number, on a lent work table.
    fn look<A: Sample + Drop>(
        &self,
        number: u32,
        net: u8,
        signs: &mut [A::Sign],
    ) -> Result<State<A::Sign>, Fault>
        ensures { Looked A.Sample.Exists A.Sample.listed A.ChainAlgebra.meaning A.ChainAlgebra.bit (length signs.old) number net (held self.now).drawn result }
    {
        let circuit = self.drawn.circuit().ok_or(Reason::CircuitAbsent)?;
        if signs.len() < WORK {
            return Err(Reason::WorkTableShort.into());
        }
        if net > LAST_NET {
            return Err(Reason::OutOfRange.into());
        }
        let inputs = circuit.ins().len() as u32;
        // Whatever its making says, it is the number asked for that is out of range.
        let mut alg = A::new(inputs, number).ok().ok_or(Reason::OutOfRange)?;
        // An algebra of some settings never declines.
        let Ok(state) = self.state_over(&mut alg, net, signs) else {
            unreachable!();
        };
        Ok(state)
    }

    // The state of a net of the drawn circuit under a setting, on a lent work table.
    pub fn probe(&self, setting: u32, net: u8, work: &mut [bool]) -> Result<State<bool>, Fault>
        ensures gives { Probed (length work.old) setting net (held self.now).drawn result }
        ensures only { OneAssignment }
        ensures some { NeverNeither }
        ensures loose { LooseIsUnknown }
    {
        self.look::<Point>(setting, net, work)
    }

    // The states of a net of the drawn circuit under the settings of a block, as the bits of two words.
    pub fn survey(&self, block: u32, net: u8, work: &mut [u64]) -> Result<State<u64>, Fault>
        ensures { Surveyed (length work.old) block net (held self.now).drawn result }
    {
        self.look::<Block>(block, net, work)
    }
}
