// What a decline says: its reason, the line and the byte it stands at, and the layer that declined.
ghost use Rattle.std.specs.Prelude.{◌≡◌};
ghost use Rattle.text.specs.Faults.{number_of, layer_of, fault};

#[derive(Clone, Copy, Debug, PartialEq, Eq)]
pub enum Layer {
    Text,
    Record,
    Circuit,
    Call,
}

#[derive(Clone, Copy, Debug, PartialEq, Eq)]
pub enum Reason {
    TextTooLong,
    MalformedLine,
    UnknownWord,
    OutOfTurn,
    FieldCount,
    BadField,
    TooManyRecords,
    NetNotAllowed,
    OutputWithoutGate,
    WaitingRing,
    LargeComponent,
    CircuitAbsent,
    PortsDiffer,
    AlgebraUnfit,
    AlgebraDeclined,
    OutOfRange,
    WorkTableShort,
    NoSuchAlgebra,
    PageShort,
}

impl Reason {
    // The number that a report shows. A method, as `layer` is: a conversion would not say which of the two it gives.
    pub fn number(self) -> u8
        ensures { result ≡ number_of self }
    {
        self as u8 + 1
    }

    pub fn layer(self) -> Layer
        ensures { result ≡ layer_of self }
    {
        match self {
            Reason::TextTooLong | Reason::MalformedLine => Layer::Text,
            Reason::UnknownWord | Reason::OutOfTurn | Reason::FieldCount | Reason::BadField =>
                Layer::Record,
            Reason::TooManyRecords
            | Reason::NetNotAllowed
            | Reason::OutputWithoutGate
            | Reason::WaitingRing
            | Reason::LargeComponent => Layer::Circuit,
            _ => Layer::Call,
        }
    }
}

#[derive(Clone, Copy, Debug, PartialEq, Eq)]
pub struct Fault {
    pub reason: Reason,
    pub line: usize,
    pub place: usize,
    pub layer: Layer,
}

impl Fault {
    // A decline of the layer that its reason belongs to.
    pub fn new(reason: Reason, line: usize, place: usize) -> Fault
        ensures { result ≡ fault reason line place }
    {
        Fault {
            reason,
            line,
            place,
            layer: reason.layer(),
        }
    }
}

// A decline of a text as a whole, or of a call, stands at no line.
impl From<Reason> for Fault {
    ghost from_gives = { λ reason f. f ≡ fault reason 0 0 };

    fn from(reason: Reason) -> Fault {
        Fault::new(reason, 0, 0)
    }
}
