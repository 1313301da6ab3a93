// The rows of a table of states: a setting's bits, a tab, and the letter of each state.
#![tactic(auto)]

ghost use Rattle.std.specs.Prelude.{◌≡◌, ◌<◌, ◌≤◌};
ghost use Rattle.arrayvec.specs.ArrayVec.{array_vec_len};
ghost use Rattle.rows.specs.Rows.{letter_of, bit_of, bits_of, RowGiven, Put};

use arrayvec::ArrayVec;
use cell::State;

// Room for any row.
pub const ROW: usize = 64;

// The most inputs and outputs of a cell.
pub const MOST: usize = 16;

// The letter of a state: 0, 1 or X. A byte of a row, and no `Display`, since a row is bytes.
pub fn letter(state: State<bool>) -> u8
    ensures { result ≡ letter_of state }
{
    match (state.may0, state.may1) {
        (true, true) => b'X',
        (true, false) => b'0',
        _ => b'1',
    }
}

// The digit of an input's bit. That there are at most 16 inputs, `row_of` has tested.
fn bit(inputs: usize, setting: u32, input: usize) -> u8
    requires { (input < inputs) × (inputs ≤ 16) }
    ensures { result ≡ bit_of inputs setting input }
{
    if (setting >> (inputs - 1 - input)) % 2 == 1 {
        b'1'
    } else {
        b'0'
    }
}

// The start of a row: the bits of its setting.
fn bits(inputs: usize, setting: u32) -> ArrayVec<u8, ROW>
    requires { inputs ≤ 16 }
    ensures bytes { result.items ≡ bits_of inputs setting }
    ensures few { array_vec_len result ≤ 16 }
{
    let mut row = ArrayVec::new();
    if inputs == 0 {
        row.push(b'-');
        return row;
    }
    for input in 0..inputs {
        row.push(bit(inputs, setting, input));
    }
    row
}

// The row of a setting and of at most 16 states; none where there are more inputs or states.
pub fn row_of(inputs: usize, setting: u32, states: &[State<bool>]) -> Option<ArrayVec<u8, ROW>>
    ensures { RowGiven inputs setting states.now result }
{
    if inputs > MOST || states.len() > MOST {
        return None;
    }
    let mut row = bits(inputs, setting);
    row.push(b'\t');
    for state in states {
        row.push(letter(*state));
    }
    row.push(b'\n');
    Some(row)
}

// Writes the row at the start of a lent one, and gives its length; nothing where there is none. The bytes after it stay. The lent row is
// the caller's memory; `row_of` gives the row as a value.
pub fn put_row(
    row: &mut [u8; ROW],
    inputs: usize,
    setting: u32,
    states: &[State<bool>],
) -> Option<usize>
    ensures { Put inputs setting states.now result row.old row.new }
{
    let text = row_of(inputs, setting, states)?;
    let length = text.len();
    row[..length].copy_from_slice(&text);
    Some(length)
}
