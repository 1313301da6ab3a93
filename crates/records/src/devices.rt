// The body records of a drawn file.
ghost use Rattle.std.specs.Prelude.{◌≡◌};
ghost use Rattle.text.specs.Outcomes.{map_ok};
ghost use Rattle.text.specs.Fields.{fields_left};
ghost use Rattle.records.specs.Kinds.{device_kinds, device_word, device_takes};
ghost use Rattle.records.specs.Records.{nets_counted};
ghost use Rattle.records.specs.Shown.{device_shown};

use crate::DeviceRecord;
use crate::fields::read_net;
use crate::words::Spelled;
use cell::DeviceKind;
use text::fault::{Fault, Reason};
use text::lines::{Fields, Line};

static KINDS: [DeviceKind; 2] = [DeviceKind::N, DeviceKind::P];

impl Spelled for DeviceKind {
    ghost kinds = { device_kinds };

    ghost spelling = { device_word };

    fn all() -> &'static [DeviceKind] {
        &KINDS
    }

    fn word(self) -> &'static [u8] {
        match self {
            DeviceKind::N => b"N",
            DeviceKind::P => b"P",
        }
    }
}

// Three nets: the gate net and the two channel ends.
pub fn read_device<'a>(
    line: &Line<'a>,
    kind: DeviceKind,
    fields: Fields<'a>,
) -> Result<DeviceRecord<'a>, Fault>
    ensures { map_ok device_shown result ≡ map_ok (λ xs. (kind, xs)) (nets_counted (device_takes kind) line.now.number line.now.start (fields_left fields.entry)) }
{
    let Some((gate, left, right)) = fields.three() else {
        return Err(line.fault(Reason::FieldCount));
    };
    let gate = read_net(line, gate)?;
    let left = read_net(line, left)?;
    let right = read_net(line, right)?;
    Ok(DeviceRecord {
        kind,
        gate,
        left,
        right,
    })
}
