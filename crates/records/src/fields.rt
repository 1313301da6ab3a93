// Single fields: words, net numbers and names.
ghost use Rattle.std.specs.Prelude.{◌≡◌, ◌≤◌, length, IfOk};
ghost use Rattle.text.specs.Outcomes.{map_ok};
ghost use Rattle.text.specs.Lines.{part_of};
ghost use Rattle.text.specs.Fields.{fields_left};
ghost use Rattle.records.specs.Numbers.{net_of, is_name_byte, spells_name};
ghost use Rattle.records.specs.Records.{single_field, net_at, name_at};
ghost use Rattle.records.specs.Shown.{net_shown, field_bytes};

use crate::Net;
use text::fault::{Fault, Reason};
use text::lines::{Field, Fields, Line};

// The most bytes of a name.
pub const NAME: usize = 16;

fn net_number(bytes: &[u8]) -> Option<u8>
    ensures { result ≡ net_of bytes.now }
{
    match bytes {
        [a @ b'0'..=b'9'] => Some(*a - b'0'),
        [a @ b'1'..=b'9', b @ b'0'..=b'9'] => Some(10 * (*a - b'0') + (*b - b'0')),
        [b'1', b @ b'0'..=b'2', c @ b'0'..=b'9'] => {
            let v = 100 + 10 * (*b - b'0') + (*c - b'0');
            (v <= 127).then_some(v)
        }
        _ => None,
    }
}

fn name_byte(b: u8) -> bool
    ensures { result ≡ is_name_byte b }
{
    matches!(b, b'0'..=b'9' | b'A'..=b'Z' | b'a'..=b'z' | b'_')
}

fn is_name(bytes: &[u8]) -> bool
    ensures { result ≡ spells_name bytes.now }
{
    !bytes.is_empty() && bytes.len() <= NAME && bytes.iter().all(|&b| name_byte(b))
}

// Here and in the reader a line goes beside what is left of its fields: the line is lent and stays, the fields are used up.

// The one field after the word.
pub fn one_field<'a>(line: &Line<'a>, fields: Fields<'a>) -> Result<Field<'a>, Fault>
    ensures { map_ok part_of result ≡ single_field line.now.number line.now.start (fields_left fields.entry) }
{
    fields.one().ok_or(line.fault(Reason::FieldCount))
}

pub fn read_net<'a>(line: &Line<'a>, field: Field<'a>) -> Result<Net<'a>, Fault>
    ensures { map_ok net_shown result ≡ net_at line.now.number (part_of field.entry) }
{
    let value = net_number(field.bytes).ok_or(line.fault_at(Reason::BadField, field.place))?;
    Ok(Net { field, value })
}

pub fn read_name<'a>(line: &Line<'a>, field: Field<'a>) -> Result<Field<'a>, Fault>
    ensures short { IfOk result (λ f. length f.bytes.now ≤ 16) }
    ensures gives { map_ok field_bytes result ≡ name_at line.now.number (part_of field.entry) }
{
    if is_name(field.bytes) {
        Ok(field)
    } else {
        Err(line.fault_at(Reason::BadField, field.place))
    }
}
