// What came of a call, as a line on a lent page.
ghost use Rattle.std.specs.Prelude.{◌≡◌, ◌≤◌, length};
ghost use Rattle.station.specs.Reports.{origin_word, Reported, declined_line};

use arrayvec::ArrayString;
use itoa::Buffer;
use text::fault::{Fault, Reason};

// Whose decline it is: that of one of the two texts, or of a call on the pair.
#[derive(Clone, Copy, Debug, PartialEq, Eq)]
pub enum Origin {
    Drawn,
    Intended,
    Pair,
}

#[derive(Clone, Copy, Debug, PartialEq, Eq)]
pub struct Decline {
    pub origin: Origin,
    pub fault: Fault,
}

// The fewest bytes that a page may have: room for any line.
pub const PAGE: usize = 64;

impl Origin {
    // Its field of a line.
    fn word(self) -> &'static str
        ensures word { result.now ≡ origin_word self }
        ensures short { length result.now ≤ 8 }
    {
        match self {
            Origin::Drawn => "drawn",
            Origin::Intended => "intended",
            Origin::Pair => "pair",
        }
    }
}

impl Decline {
    // Its line: the word DECLINED, whose it is, its number, line and place. By `push_str`, which cannot fail where there is room;
    // of a `write!` no clause says so.
    #[tactic(auto, using(std::proofs::Common::append_assoc))]
    pub fn line(&self) -> ArrayString<PAGE>
        ensures { result.bytes ≡ declined_line self.now }
    {
        let mut digits = Buffer::new();
        let mut line = ArrayString::new();
        line.push_str("DECLINED\t");
        line.push_str(self.origin.word());
        line.push_str("\t");
        line.push_str(digits.format(self.fault.reason.number()));
        line.push_str("\t");
        line.push_str(digits.format(self.fault.line));
        line.push_str("\t");
        line.push_str(digits.format(self.fault.place));
        line.push_str("\n");
        line
    }
}

// Writes a decline as a line at the start of the page, and gives its length. A page under 64 bytes is declined, and left. The page is
// the caller's memory, of any length, so that a report takes none; `line` gives the line as a value.
pub fn report_decline(decline: &Decline, page: &mut [u8]) -> Result<usize, Fault>
    ensures { Reported (declined_line decline.now) page.old result page.new }
{
    if page.len() < PAGE {
        return Err(Reason::PageShort.into());
    }
    let line = decline.line();
    let length = line.len();
    page[..length].copy_from_slice(line.as_bytes());
    Ok(length)
}
