// The laws of states and of intended bits, each proved once.
#![tactic(auto)]

ghost use Rattle.cell.specs.Laws.{HasStates, OneAssignment, NeverNeither, LooseIsUnknown, HasBits, OneBit};
ghost use Rattle.meaning.specs.Traced.{TracedStates};

// Where waiting never comes back to its start, every setting has states, no others, and no net is neither 0 nor 1. A net on no
// device is X.
pub fn states_are_one()
    ensures there { HasStates }
    ensures only { OneAssignment }
    ensures some { NeverNeither }
    ensures loose { LooseIsUnknown }
{}

// Where each gate stands after those that it reads, every setting has bits, and the gates allow no others.
pub fn bits_are_one()
    ensures there { HasBits }
    ensures only { OneBit }
{}

// The states of four small cells.
pub fn traced_states()
    ensures { TracedStates }
{}
