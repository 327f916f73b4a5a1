// The numbers of a text, by any parting.
#![tactic(auto)]

ghost use Rattle.std.specs.Prelude.{◌≡◌, ◌+◌, ◌^◌, ◌<◌, ◌≤◌, length};
ghost use Rattle.text.specs.Text.{fault_of, plain_kind, word_kind, free_kind, field_kind, kind_of, end_kind, parted, closed, padded, grown, begun, lengthened, effect_of, read_text};
ghost use Rattle.text.specs.Inner.{kind_at, FoundTo};

use places::Fault;

// What parts the numbers of a text: blanks of any kind, with lines among them; blanks and tabs on one line; or one byte, which ends a field.
#[derive(Clone, Copy)]
pub enum Parting {
    Free,
    Words,
    Fields(u8),
}

// What a byte is in a text of numbers; one that is part of none has its fault.
#[derive(Clone, Copy)]
enum Kind {
    Blank,
    Padding,
    Separator,
    Digit(u32),
    Other(Fault, u8),
}

// The number in the making, of the digits so far; in a field it may have blanks after it.
#[derive(Clone, Copy)]
enum Making {
    Nothing,
    Number(u32),
    Padded(u32),
}

// What a byte does to it. A fault has what was found and what was wanted.
#[derive(Clone, Copy)]
enum Effect {
    Becomes(Making),
    Ends(u32),
    Faulty(Fault, usize, usize),
}

// The first fault of a text, its place, counted from 1, what was found and what was wanted.
#[derive(Clone, Copy)]
pub struct Flaw {
    pub fault: Fault,
    pub place: usize,
    pub found: usize,
    pub wanted: usize,
}

// The fault of a byte that is part of no text.
#[tactic(auto, using(decimal::proofs::Choices::choosing), unfolding(crate::specs::Text::fault_of))]
fn fault_of(b: u8) -> Fault
    ensures { result ≡ fault_of b }
{
    match b {
        b'\'' | b',' | b'.' | b'_' => Fault::Grouped,
        b'+' | b'-' => Fault::Signed,
        _ => Fault::Unreadable,
    }
}

// A digit or a fault.
#[tactic(auto, using(decimal::proofs::Choices::choosing), unfolding(crate::specs::Text::plain_kind))]
fn plain_kind(b: u8) -> Kind
    ensures { result ≡ plain_kind b }
{
    match b {
        b'0'..=b'9' => Kind::Digit(u32::from(b - b'0')),
        _ => Kind::Other(fault_of(b), b),
    }
}

// With numbers parted as words.
#[tactic(auto, using(decimal::proofs::Choices::choosing), unfolding(crate::specs::Text::word_kind))]
fn word_kind(b: u8) -> Kind
    ensures { result ≡ word_kind b }
{
    match b {
        b' ' | b'\t' => Kind::Blank,
        _ => plain_kind(b),
    }
}

// With words on several lines.
#[tactic(auto, using(decimal::proofs::Choices::choosing), unfolding(crate::specs::Text::free_kind))]
fn free_kind(b: u8) -> Kind
    ensures { result ≡ free_kind b }
{
    match b {
        b'\n' | b'\r' => Kind::Blank,
        _ => word_kind(b),
    }
}

// With fields that a separator ends.
#[tactic(auto, using(decimal::proofs::Choices::choosing), unfolding(crate::specs::Text::field_kind))]
fn field_kind(separator: u8, b: u8) -> Kind
    ensures { result ≡ field_kind separator b }
{
    if b == separator {
        Kind::Separator
    } else if b == b' ' {
        Kind::Padding
    } else {
        plain_kind(b)
    }
}

fn kind_of(by: Parting, b: u8) -> Kind
    ensures { result ≡ kind_of by b }
{
    match by {
        Parting::Free => free_kind(b),
        Parting::Words => word_kind(b),
        Parting::Fields(separator) => field_kind(separator, b),
    }
}

// The end of a text ends its last number as a byte would.
fn end_kind(by: Parting) -> Kind
    ensures { result ≡ end_kind by }
{
    match by {
        Parting::Free | Parting::Words => Kind::Blank,
        Parting::Fields(_) => Kind::Separator,
    }
}

// The kind at a place, counted from 0.
#[tactic(auto, using(crate::proofs::Reading::kind_byte, crate::proofs::Reading::kind_end))]
fn kind_at(by: Parting, text: &[u8], i: usize) -> Kind
    ensures { result ≡ kind_at by text.now i }
{
    match text.get(i) {
        Some(b) => kind_of(by, *b),
        None => end_kind(by),
    }
}

// A blank between words.
fn part(making: Making) -> Effect
    ensures { result ≡ parted making }
{
    match making {
        Making::Nothing => Effect::Becomes(Making::Nothing),
        Making::Number(x) | Making::Padded(x) => Effect::Ends(x),
    }
}

// A separator.
fn close(making: Making) -> Effect
    ensures { result ≡ closed making }
{
    match making {
        Making::Nothing => Effect::Faulty(Fault::NoAmount, 0, 0),
        Making::Number(x) | Making::Padded(x) => Effect::Ends(x),
    }
}

// A blank in a field.
fn pad(making: Making) -> Effect
    ensures { result ≡ padded making }
{
    match making {
        Making::Nothing => Effect::Becomes(Making::Nothing),
        Making::Number(x) | Making::Padded(x) => Effect::Becomes(Making::Padded(x)),
    }
}

// A digit more for the number x.
#[tactic(auto, using(decimal::proofs::Choices::choosing), unfolding(crate::specs::Text::grown))]
fn grow(x: u32, d: u32) -> Effect
    ensures { result ≡ grown x d }
{
    let y = 10 * u64::from(x) + u64::from(d);
    if u64::from(chain::MOST_AMOUNT) < y {
        Effect::Faulty(Fault::TooLarge, 0, 0)
    } else {
        Effect::Becomes(Making::Number(y as u32))
    }
}

// The first digit of a number, where so many of the cells are filled.
#[tactic(auto, using(decimal::proofs::Choices::choosing), unfolding(crate::specs::Text::begun))]
fn begin(made: usize, cells: usize, d: u32) -> Effect
    requires { cells + 1 < 2 ^ 64 }
    ensures { result ≡ begun made cells d }
{
    if made < cells {
        Effect::Becomes(Making::Number(d))
    } else {
        Effect::Faulty(Fault::NoRoom, cells, cells + 1)
    }
}

// A digit.
fn lengthen(made: usize, cells: usize, d: u32, making: Making) -> Effect
    requires { cells + 1 < 2 ^ 64 }
    ensures { result ≡ lengthened made cells d making }
{
    match making {
        Making::Nothing => begin(made, cells, d),
        Making::Number(x) => grow(x, d),
        Making::Padded(_) => Effect::Faulty(Fault::Grouped, d as usize + 48, 0),
    }
}

// What a byte of some kind does.
fn effect_of(made: usize, cells: usize, making: Making, kind: Kind) -> Effect
    requires { cells + 1 < 2 ^ 64 }
    ensures { result ≡ effect_of made cells making kind }
{
    match kind {
        Kind::Blank => part(making),
        Kind::Padding => pad(making),
        Kind::Separator => close(making),
        Kind::Digit(d) => lengthen(made, cells, d, making),
        Kind::Other(fault, b) => Effect::Faulty(fault, usize::from(b), 0),
    }
}

// Reads the numbers of a text over so many cells from a place on, and answers how many there are. Those that stand whole before a fault are stored.
pub fn parse(
    by: Parting,
    text: &[u8],
    from: usize,
    room: usize,
    numbers: &mut [u32],
) -> Result<usize, Flaw>
    requires { from + room ≤ length numbers.old }
    ensures { FoundTo (read_text by text.now room) from numbers.old result numbers.new }
{
    let mut made = 0;
    let mut making = Making::Nothing;
    for i in 0..text.len() + 1 {
        match effect_of(made, room, making, kind_at(by, text, i)) {
            Effect::Becomes(next) => making = next,
            Effect::Ends(x) => {
                numbers[from + made] = x;
                made += 1;
                making = Making::Nothing;
            }
            Effect::Faulty(fault, found, wanted) => {
                return Err(Flaw {
                    fault,
                    place: i + 1,
                    found,
                    wanted,
                });
            }
        }
    }
    Ok(made)
}
