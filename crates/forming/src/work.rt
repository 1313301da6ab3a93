// The lent signs on which states are formed.
ghost use Rattle.std.specs.Prelude.{◌≡◌, ◌≤◌, length, take, drop};

use crate::signs::NetStates;
use crate::{STATE_SIGNS, TABLE_SIGNS};

// The states of all nets, and the two tables of one component after another.
#[derive(Debug, Drop)]
pub struct WorkTable<'a, S> {
    pub states: NetStates<'a, S>,
    pub may: &'a mut [S],
    pub sure: &'a mut [S],
    pub ghost may_room: { 640 ≤ length may.now },
    pub ghost sure_room: { 640 ≤ length sure.now },
}

impl<'a, S: Copy> WorkTable<'a, S> {
    // The work table is cut from a lent slice.
    pub fn new(signs: &'a mut [S]) -> WorkTable<'a, S>
        requires { 1536 ≤ length signs.old }
        ensures states { result.states.signs.now ≡ take 256 signs.old }
        ensures may { result.may.now ≡ take 640 (drop 256 signs.old) }
        ensures sure { result.sure.now ≡ drop 640 (drop 256 signs.old) }
    {
        let (states, tables) = signs.split_at_mut(STATE_SIGNS);
        let (may, sure) = tables.split_at_mut(TABLE_SIGNS);
        let states = NetStates { signs: states };
        WorkTable { states, may, sure }
    }
}
