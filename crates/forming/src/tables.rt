// The tables of a component: a row for each of its nets, with links to its nets and then own values. One is of the devices that
// may conduct, with an own column for sources that may be 1 and one for those that may be 0; the other of those that surely do.
ghost use Rattle.std.specs.Prelude.{◌≡◌, ℕ, ◌+◌, ◌<◌, ◌≤◌, true, ◌⊎◌, length, MatchOption, MatchResult, slice_index_or, position, ◌==◌};
ghost use Rattle.cell.specs.Circuits.{device_nets, Numbered};
ghost use Rattle.algebra.specs.Signals.{Boolean};
ghost use Rattle.paths.specs.Shapes.{SameTable};
ghost use Rattle.forming.specs.Signs.{InHand, values};
ghost use Rattle.forming.specs.Systems.{Raised, TakesUp, Filled, Reached, Apart};
ghost use Rattle.forming.specs.Works.{MadeOf, WorkInHand, SameStates};

use crate::nets::Component;
use crate::signs::conducts_at;
use crate::work::WorkTable;
use algebra::{ChainAlgebra, Declined, SignalAlgebra};
use cell::{Device, DeviceList};
use paths::Table;

// The own columns of the two tables.
pub(crate) const MAY_COLUMNS: usize = 2;

pub(crate) const SURE_COLUMNS: usize = 1;

// A table for a component of so many nets, with so many own columns.
pub(crate) fn table_of<S>(signs: &mut [S], nets: usize, columns: usize) -> Table<'_, S>
    requires few { nets ≤ 24 }
    requires narrow { columns ≤ 2 }
    requires room { 640 ≤ length signs.old }
    ensures { MadeOf signs.entry nets columns result }
{
    Table {
        signs,
        nets,
        columns,
    }
}

// How a device with an end among the nets of a component lies to them.
#[derive(Clone, Copy, Debug, PartialEq, Eq)]
pub(crate) enum Reach {
    // It links two of them, at these places.
    Link(usize, usize),
    // It leads from one of them to a net outside.
    Drive(usize, u8),
    // It has both ends on one of them.
    Loop,
}

// The place of a net in a list.
fn place_in(nets: &[u8], net: u8) -> Option<usize>
    ensures { result ≡ position (λ x. x == net) nets.now }
{
    nets.iter().position(|&each| each == net)
}

fn reach_of(nets: &[u8], device: &Device) -> Option<Reach>
    ensures { MatchOption result (Apart nets.now device.now) (Reached nets.now device.now) }
{
    match (place_in(nets, device.left), place_in(nets, device.right)) {
        (Some(p), Some(q)) if p == q => Some(Reach::Loop),
        (Some(p), Some(q)) => Some(Reach::Link(p, q)),
        (Some(p), None) => Some(Reach::Drive(p, device.right)),
        (None, Some(q)) => Some(Reach::Drive(q, device.left)),
        (None, None) => None,
    }
}

// The cell of a row and a column becomes its join with a sign.
fn join_cell<A: SignalAlgebra>(
    alg: &mut A,
    table: &mut Table<A::Sign>,
    row: usize,
    column: usize,
    sign: A::Sign,
) -> Result<(), Declined>
    requires boolean { Boolean A.ChainAlgebra.ops A.ChainAlgebra.bit }
    requires row { row < table.old.nets }
    requires column { column < table.old.nets + table.old.columns }
    requires hand { InHand (A.ChainAlgebra.meaning alg.old) table.old.signs.now }
    requires sign { (A.ChainAlgebra.meaning alg.old).hand sign ≡ true }
    ensures raised { MatchResult result (λ _. Raised A.ChainAlgebra.ops A.ChainAlgebra.bit (A.ChainAlgebra.meaning alg.old) (A.ChainAlgebra.meaning alg.new) table.old.nets (table.old.nets + table.old.columns) (λ a b. (a ≡ row) × (b ≡ column)) sign table.old.signs.now table.new.signs.now) (λ _. (A.ChainAlgebra.meaning alg.new).spent ≡ true) }
    ensures same { SameTable table.old table.new }
{
    let at = table.place(row, column);
    table.signs[at] = alg.join(table.signs[at], sign)?;
    Ok(())
}

// The link between two nets, in both directions, is joined with a sign.
fn join_link<A: SignalAlgebra>(
    alg: &mut A,
    table: &mut Table<A::Sign>,
    p: usize,
    q: usize,
    sign: A::Sign,
) -> Result<(), Declined>
    requires boolean { Boolean A.ChainAlgebra.ops A.ChainAlgebra.bit }
    requires one { p < table.old.nets }
    requires two { q < table.old.nets }
    requires hand { InHand (A.ChainAlgebra.meaning alg.old) table.old.signs.now }
    requires sign { (A.ChainAlgebra.meaning alg.old).hand sign ≡ true }
    ensures raised { MatchResult result (λ _. Raised A.ChainAlgebra.ops A.ChainAlgebra.bit (A.ChainAlgebra.meaning alg.old) (A.ChainAlgebra.meaning alg.new) table.old.nets (table.old.nets + table.old.columns) (λ a b. ((a ≡ p) × (b ≡ q)) ⊎ ((a ≡ q) × (b ≡ p))) sign table.old.signs.now table.new.signs.now) (λ _. (A.ChainAlgebra.meaning alg.new).spent ≡ true) }
    ensures same { SameTable table.old table.new }
{
    join_cell(alg, table, p, q, sign)?;
    join_cell(alg, table, q, p, sign)
}

// A device is taken up into the tables of a component where it has an end among its nets.
fn take_up<A: SignalAlgebra>(
    alg: &mut A,
    component: Component<'_>,
    device: &Device,
    work: &mut WorkTable<A::Sign>,
) -> Result<(), Declined>
    requires boolean { Boolean A.ChainAlgebra.ops A.ChainAlgebra.bit }
    requires device { Numbered (device_nets device.now) }
    requires hand { WorkInHand (A.ChainAlgebra.meaning alg.old) work.old }
    ensures taken { MatchResult result (λ _. TakesUp A.ChainAlgebra.ops A.ChainAlgebra.bit (A.ChainAlgebra.meaning alg.old) (A.ChainAlgebra.meaning alg.new) work.old.states.signs.now component.entry.nets.now device.now work.old.may.now work.new.may.now work.old.sure.now work.new.sure.now) (λ _. (A.ChainAlgebra.meaning alg.new).spent ≡ true) }
    ensures same { SameStates work.old work.new }
{
    let Some(reach) = reach_of(component.nets, device) else {
        return Ok(());
    };
    let count = component.nets.len();
    let opens = conducts_at(device.kind);
    let conducts = work.states.sign(device.gate, opens);
    let surely = alg.complement(work.states.sign(device.gate, !opens))?;
    match reach {
        Reach::Link(p, q) => {
            let may = &mut *work.may;
            join_link(alg, &mut table_of(may, count, MAY_COLUMNS), p, q, conducts)?;
            let sure = &mut *work.sure;
            join_link(alg, &mut table_of(sure, count, SURE_COLUMNS), p, q, surely)
        }
        Reach::Drive(p, source) => {
            let source = work.states.at(source);
            let may = &mut *work.may;
            let mut may = table_of(may, count, MAY_COLUMNS);
            let one = alg.meet(conducts, source.may1)?;
            join_cell(alg, &mut may, p, count, one)?;
            let zero = alg.meet(conducts, source.may0)?;
            join_cell(alg, &mut may, p, count + 1, zero)?;
            let sure = &mut *work.sure;
            join_cell(
                alg,
                &mut table_of(sure, count, SURE_COLUMNS),
                p,
                count,
                surely,
            )
        }
        Reach::Loop => Ok(()),
    }
}

// All cells become zero. The slice's own `fill` asks for a `clone` that cannot fail, which the bound of a sign does not say.
pub(crate) fn clear_cells<A: SignalAlgebra>(alg: &A, cells: &mut [A::Sign])
    ensures hand { InHand (A.ChainAlgebra.meaning alg.now) cells.new }
    ensures long { length cells.new ≡ length cells.old }
    ensures zero { (k : ℕ) → k < length cells.old → slice_index_or (values (A.ChainAlgebra.meaning alg.now) cells.new) k A.ChainAlgebra.ops.zero ≡ A.ChainAlgebra.ops.zero }
{
    let zero = alg.zero();
    for cell in cells {
        *cell = zero;
    }
}

// The tables of a component are filled from the devices, in the order of the file.
pub(crate) fn fill<A: SignalAlgebra>(
    alg: &mut A,
    devices: DeviceList<'_>,
    component: Component<'_>,
    work: &mut WorkTable<A::Sign>,
) -> Result<(), Declined>
    requires boolean { Boolean A.ChainAlgebra.ops A.ChainAlgebra.bit }
    requires hand { WorkInHand (A.ChainAlgebra.meaning alg.old) work.old }
    ensures filled { MatchResult result (λ _. Filled A.ChainAlgebra.ops A.ChainAlgebra.bit (A.ChainAlgebra.meaning alg.old) (A.ChainAlgebra.meaning alg.new) work.old.states.signs.now component.entry.nets.now devices.entry.devices.now work.old.may.now work.new.may.now work.old.sure.now work.new.sure.now) (λ _. (A.ChainAlgebra.meaning alg.new).spent ≡ true) }
    ensures same { SameStates work.old work.new }
{
    let count = component.nets.len();
    clear_cells(alg, &mut work.may[..(count + MAY_COLUMNS) * count]);
    clear_cells(alg, &mut work.sure[..(count + SURE_COLUMNS) * count]);
    for device in devices.devices {
        take_up(alg, component, device, work)?;
    }
    Ok(())
}
