// Forming the states of the nets of one component.
ghost use Rattle.std.specs.Prelude.{◌≡◌, ◌<◌, ◌≤◌, true, MatchResult};
ghost use Rattle.algebra.specs.Signals.{Boolean};
ghost use Rattle.forming.specs.Components.{NetFormed, ComponentFormed};
ghost use Rattle.forming.specs.Works.{WorkInHand, SameWork};

use crate::nets::Component;
use crate::tables::{MAY_COLUMNS, SURE_COLUMNS, fill, table_of};
use crate::work::WorkTable;
use algebra::{ChainAlgebra, Declined, SignalAlgebra};
use cell::{DeviceList, State};
use paths::place;

// The state of the net at a place of a component, from its solved tables: what it reaches, and both where it is not driven.
fn net_state<A: SignalAlgebra>(
    alg: &mut A,
    work: &WorkTable<A::Sign>,
    nets: usize,
    net: usize,
) -> Result<State<A::Sign>, Declined>
    requires boolean { Boolean A.ChainAlgebra.ops A.ChainAlgebra.bit }
    requires net { net < nets }
    requires few { nets ≤ 24 }
    requires hand { WorkInHand (A.ChainAlgebra.meaning alg.old) work.now }
    ensures { MatchResult result (NetFormed A.ChainAlgebra.ops A.ChainAlgebra.bit (A.ChainAlgebra.meaning alg.old) (A.ChainAlgebra.meaning alg.new) nets net work.now.may.now work.now.sure.now) (λ _. (A.ChainAlgebra.meaning alg.new).spent ≡ true) }
{
    let driven = work.sure[place(nets, nets + SURE_COLUMNS, net, nets)];
    let loose = alg.complement(driven)?;
    let may1 = alg.join(loose, work.may[place(nets, nets + MAY_COLUMNS, net, nets)])?;
    let may0 = alg.join(
        loose,
        work.may[place(nets, nets + MAY_COLUMNS, net, nets + 1)],
    )?;
    Ok(State { may0, may1 })
}

// The states of the nets of a component, from those of its gates and of the sources.
pub(crate) fn form_component<A: SignalAlgebra>(
    alg: &mut A,
    devices: DeviceList<'_>,
    component: Component<'_>,
    work: &mut WorkTable<A::Sign>,
) -> Result<(), Declined>
    requires boolean { Boolean A.ChainAlgebra.ops A.ChainAlgebra.bit }
    requires hand { WorkInHand (A.ChainAlgebra.meaning alg.old) work.old }
    ensures formed { MatchResult result (λ _. ComponentFormed A.ChainAlgebra.bit (A.ChainAlgebra.meaning alg.old) (A.ChainAlgebra.meaning alg.new) devices.entry.devices.now component.entry.nets.now work.old.states.signs.now work.new.states.signs.now work.old.may.now work.new.may.now work.old.sure.now work.new.sure.now) (λ _. (A.ChainAlgebra.meaning alg.new).spent ≡ true) }
    ensures same { SameWork work.old work.new }
{
    fill(alg, devices, component, work)?;
    let count = component.nets.len();
    let may = &mut *work.may;
    table_of(may, count, MAY_COLUMNS).solve(alg)?;
    let sure = &mut *work.sure;
    table_of(sure, count, SURE_COLUMNS).solve(alg)?;
    for (place, &net) in component.nets.iter().enumerate() {
        let state = net_state(alg, work, count, place)?;
        work.states.put(net, state);
    }
    Ok(())
}
