// Forming the states of all nets of a drawn circuit.
ghost use Rattle.std.specs.Prelude.{◌≡◌, true, MatchResult};
ghost use Rattle.cell.specs.Lists.{Every};
ghost use Rattle.cell.specs.Circuits.{Numbered};
ghost use Rattle.order.specs.Found.{order_of};
ghost use Rattle.algebra.specs.Signals.{Boolean};
ghost use Rattle.forming.specs.Systems.{Formable};
ghost use Rattle.forming.specs.Components.{SourcesFormed, AllFormed};
ghost use Rattle.forming.specs.Works.{SameWork};

use crate::component::form_component;
use crate::nets::Component;
use crate::signs::NetStates;
use crate::tables::clear_cells;
use crate::work::WorkTable;
use algebra::{ChainAlgebra, Declined, SignalAlgebra};
use cell::{DeviceList, State};
use order::order::Order;

// The rails.
const GROUND: u8 = 0;

const SUPPLY: u8 = 1;

// The states of rails and inputs; no other net may be anything yet.
fn form_sources<A: SignalAlgebra>(
    alg: &mut A,
    ins: &[u8],
    states: &mut NetStates<A::Sign>,
) -> Result<(), Declined>
    requires boolean { Boolean A.ChainAlgebra.ops A.ChainAlgebra.bit }
    requires ins { Numbered ins.now }
    ensures formed { MatchResult result (λ _. SourcesFormed A.ChainAlgebra.bit (A.ChainAlgebra.meaning alg.old) (A.ChainAlgebra.meaning alg.new) ins.now states.old.signs.now states.new.signs.now) (λ _. (A.ChainAlgebra.meaning alg.new).spent ≡ true) }
    ensures same_reference { states.new.signs.ghost_name ≡ states.old.signs.ghost_name }
{
    clear_cells(alg, states.signs);
    let zero = alg.zero();
    let one = alg.one();
    states.put(
        GROUND,
        State {
            may0: one,
            may1: zero,
        },
    );
    states.put(
        SUPPLY,
        State {
            may0: zero,
            may1: one,
        },
    );
    for (i, &net) in ins.iter().enumerate() {
        let may1 = alg.input(i)?;
        let may0 = alg.complement(may1)?;
        states.put(net, State { may0, may1 });
    }
    Ok(())
}

// The states of all nets, component by component in an order in which each comes after those that it waits for.
pub fn form_states<A: SignalAlgebra>(
    alg: &mut A,
    ins: &[u8],
    devices: DeviceList<'_>,
    order: &Order,
    work: &mut WorkTable<A::Sign>,
) -> Result<(), Declined>
    requires ins { Numbered ins.now }
    requires order { Every Formable (order_of order.now) }
    ensures formed { MatchResult result (λ _. AllFormed A.ChainAlgebra.bit (A.ChainAlgebra.meaning alg.old) (A.ChainAlgebra.meaning alg.new) ins.now devices.entry.devices.now (order_of order.now) work.new.states.signs.now) (λ _. (A.ChainAlgebra.meaning alg.new).spent ≡ true) }
    ensures same { SameWork work.old work.new }
{
    // What the signs of an algebra are, as bits, stands in what this call promises.
    let _ = alg.inputs();
    clear_cells(alg, work.may);
    clear_cells(alg, work.sure);
    form_sources(alg, ins, &mut work.states)?;
    for nets in order.components() {
        form_component(alg, devices, Component { nets }, work)?;
    }
    Ok(())
}
