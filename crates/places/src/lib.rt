// What a text answers, and where a place of a text is.
#![tactic(auto)]

ghost use Rattle.std.specs.Prelude.{◌≡◌, ◌+◌, ◌^◌, ◌<◌};
ghost use Rattle.places.specs.Faults.{number_of};
ghost use Rattle.places.specs.Places.{after_byte, spot_of, cut_text, refused_at};

// What a text may have that turns it down, with the numbers of the refusals.
#[derive(Clone, Copy, PartialEq, Eq)]
pub enum Fault {
    OutOfRange = 1,
    NoRoom = 5,
    Unreadable = 101,
    TooLarge = 102,
    CutOff = 103,
    OtherFields = 104,
    Grouped = 105,
    Signed = 106,
    NoAmount = 107,
}

impl Fault {
    // The refusal's number.
    pub fn number(self) -> u32
        ensures { result ≡ number_of self }
    {
        self as u32
    }
}

// A line and a column of a text, each counted from 1.
#[derive(Clone, Copy)]
pub struct Spot {
    pub line: usize,
    pub column: usize,
}

// Why a text is turned down: its fault, or what stands for one, where it is, what was found and what was wanted.
#[derive(Clone, Copy)]
pub struct Refusal<F> {
    pub fault: F,
    pub spot: Spot,
    pub found: usize,
    pub wanted: usize,
}

// Where the text goes on after a byte.
#[tactic(auto, using(decimal::proofs::Choices::choosing), unfolding(crate::specs::Places::after_byte))]
fn after(spot: Spot, b: u8) -> Spot
    requires { (spot.line + 1 < 2 ^ 64) × (spot.column + 1 < 2 ^ 64) }
    ensures { result ≡ after_byte spot b }
{
    if b == b'\n' {
        Spot {
            line: spot.line + 1,
            column: 1,
        }
    } else {
        Spot {
            line: spot.line,
            column: spot.column + 1,
        }
    }
}

// Where a place is in a text.
fn spot_of(text: &[u8], place: usize) -> Spot
    ensures { result ≡ spot_of text.now place }
{
    let before = place.saturating_sub(1).min(text.len());
    let mut spot = Spot { line: 1, column: 1 };
    for b in &text[..before] {
        spot = after(spot, *b);
    }
    spot
}

// The refusal of a text by a fault at a place.
pub fn refuse<F>(text: &[u8], fault: F, place: usize, found: usize, wanted: usize) -> Refusal<F>
    ensures { result ≡ refused_at fault (spot_of text.now place) found wanted }
{
    Refusal {
        fault,
        spot: spot_of(text, place),
        found,
        wanted,
    }
}

// The refusal of a text that was cut off.
#[tactic(auto, unfolding(crate::specs::Places::cut_text))]
pub fn cut_text(text: &[u8]) -> Refusal<Fault>
    ensures { result ≡ cut_text text.now }
{
    refuse(text, Fault::CutOff, text.len() + 1, 0, 0)
}
