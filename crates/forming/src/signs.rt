// The states of the nets kept in a table of signs, two for each net. A net comes as a byte, as the lists of a circuit have it; that it
// is a net number is known of the lists, so that it stands in clauses here.
ghost use Rattle.std.specs.Prelude.{◌≡◌, ◌<◌, ◌≤◌, Bool, true, false, length, slice_index_or, slice_set};
ghost use Rattle.cell.specs.States.{opens};
ghost use Rattle.forming.specs.Signs.{place_of, side};

use cell::{DeviceKind, State};

// Where the sign stands that tells whether a net may be a bit.
fn place_of(net: u8, bit: bool) -> usize
    requires { net ≤ 127 }
    ensures is { result ≡ place_of net bit }
    ensures inside { result < 256 }
{
    2 * usize::from(net) + usize::from(bit)
}

// The bit of its gate at which a device conducts.
pub(crate) fn conducts_at(kind: DeviceKind) -> bool
    ensures { result ≡ opens kind }
{
    // Each kind says when it conducts.
    match kind {
        DeviceKind::N => true,
        DeviceKind::P => false,
    }
}

// The state of a net in a table of the signs of all nets.
pub fn state_at<S: Copy>(states: &[S], net: u8) -> State<S>
    requires net { net ≤ 127 }
    requires size { length states.now ≡ 256 }
    ensures { (b : Bool) (d : S) → side b result ≡ slice_index_or states.now (place_of net b) d }
{
    let may0 = states[place_of(net, false)];
    let may1 = states[place_of(net, true)];
    State { may0, may1 }
}

// The states of the nets from 0 to 127.
#[derive(Debug, Drop)]
pub struct NetStates<'a, S> {
    pub signs: &'a mut [S],
    pub ghost size: { length signs.now ≡ 256 },
}

impl<'a, S: Copy> NetStates<'a, S> {
    // The sign that tells whether a net may be a bit.
    pub(crate) fn sign(&self, net: u8, bit: bool) -> S
        requires { net ≤ 127 }
        ensures { (d : S) → result ≡ slice_index_or self.now.signs.now (place_of net bit) d }
    {
        self.signs[place_of(net, bit)]
    }

    // The state of a net.
    pub fn at(&self, net: u8) -> State<S>
        requires { net ≤ 127 }
        ensures { (b : Bool) (d : S) → side b result ≡ slice_index_or self.now.signs.now (place_of net b) d }
    {
        state_at(self.signs, net)
    }

    // The state of a net becomes another.
    pub(crate) fn put(&mut self, net: u8, state: State<S>)
        requires { net ≤ 127 }
        ensures is { self.new.signs.now ≡ slice_set (slice_set self.old.signs.now (place_of net false) state.may0) (place_of net true) state.may1 }
        ensures same_reference { self.new.signs.ghost_name ≡ self.old.signs.ghost_name }
    {
        self.signs[place_of(net, false)] = state.may0;
        self.signs[place_of(net, true)] = state.may1;
    }
}
