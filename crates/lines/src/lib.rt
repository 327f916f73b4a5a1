// The lines of a text, and what a table's line has: its separators, its fields, its digits.
#![tactic(auto)]

ghost use Rattle.std.specs.Prelude.{◌≡◌, ◌+◌, ◌≤◌, length, drop};
ghost use Rattle.lines.specs.Lines.{content_length, content_of, same_unit, digit_unit, tally_of, parting_of, separators_in, fields_in, head_of};
ghost use Rattle.lines.specs.Inner.{until_newline, Low, TallyAsked, blank_unit, begun, tallied};

use text::Parting;

// Where the line from a place on ends: its newline, or the text's end.
pub fn line_end(text: &[u8], at: usize) -> usize
    requires { at ≤ length text.now }
    ensures { result ≡ at + until_newline (drop at text.now) }
{
    match text[at..].iter().position(|b| *b == b'\n') {
        Some(i) => at + i,
        None => text.len(),
    }
}

// How many bytes a line has without the carriage return before its newline.
#[tactic(auto, using(decimal::proofs::Choices::choosing, decimal::proofs::LastByte::ends_is), unfolding(crate::specs::Lines::content_length))]
pub fn content_length(line: &[u8]) -> usize
    ensures { result ≡ content_length line.now }
{
    if line.ends_with(b"\r") {
        line.len() - 1
    } else {
        line.len()
    }
}

// What a line has so far.
#[derive(Clone, Copy)]
struct Tally {
    tabs: usize,
    semicolons: usize,
    commas: usize,
    digits: usize,
    words: usize,
}

// A table's first line: how its fields are parted, how many fields and how many digits it has, and where it ends.
#[derive(Clone, Copy)]
pub struct Head {
    pub by: Parting,
    pub fields: usize,
    pub digits: usize,
    pub stop: usize,
}

// 1 where a byte is another one, is a digit, is a blank; else 0.
#[tactic(auto, using(decimal::proofs::Choices::choosing), unfolding(crate::specs::Lines::same_unit))]
fn same(b: u8, other: u8) -> usize
    ensures { result ≡ same_unit b other }
{
    usize::from(b == other)
}

#[tactic(auto, using(decimal::proofs::Choices::choosing), unfolding(crate::specs::Lines::digit_unit))]
fn digit(b: u8) -> usize
    ensures { result ≡ digit_unit b }
{
    usize::from(b.is_ascii_digit())
}

#[tactic(auto, using(decimal::proofs::Choices::choosing), unfolding(crate::specs::Inner::blank_unit))]
fn blank(b: u8) -> usize
    ensures { result ≡ blank_unit b }
{
    usize::from(b == b' ' || b == b'\t')
}

// The gap before a byte, where it begins a word. A gap is 1 where a word may begin, at the start and after a blank, else 0.
#[tactic(auto, using(decimal::proofs::Choices::choosing), unfolding(crate::specs::Inner::begun))]
fn begins(gap: usize, b: u8) -> usize
    ensures { result ≡ begun gap b }
{
    if blank(b) == 0 { gap } else { 0 }
}

// A byte more.
#[tactic(auto, using(crate::proofs::Lines::units))]
fn count(tally: Tally, gap: usize, b: u8) -> Tally
    requires { TallyAsked tally gap }
    ensures { result ≡ tallied tally gap b }
{
    Tally {
        tabs: tally.tabs + same(b, b'\t'),
        semicolons: tally.semicolons + same(b, b';'),
        commas: tally.commas + same(b, b','),
        digits: tally.digits + digit(b),
        words: tally.words + begins(gap, b),
    }
}

// All bytes of a line.
fn tally_of(line: &[u8]) -> Tally
    ensures { result ≡ tally_of line.now }
{
    let mut so_far = Tally {
        tabs: 0,
        semicolons: 0,
        commas: 0,
        digits: 0,
        words: 0,
    };
    let mut gap = 1;
    for b in line {
        so_far = count(so_far, gap, *b);
        gap = blank(*b);
    }
    so_far
}

// How the fields are parted that a first line has.
#[tactic(auto, using(decimal::proofs::Choices::choosing), unfolding(crate::specs::Lines::parting_of))]
fn parting_of(tally: Tally) -> Parting
    ensures { result ≡ parting_of tally }
{
    if 0 < tally.tabs {
        Parting::Fields(b'\t')
    } else if 0 < tally.semicolons {
        Parting::Fields(b';')
    } else if 0 < tally.commas {
        Parting::Fields(b',')
    } else {
        Parting::Words
    }
}

// How many of a separator a line has.
#[tactic(auto, using(decimal::proofs::Choices::choosing), unfolding(crate::specs::Lines::separators_in))]
fn separators(separator: u8, tally: Tally) -> usize
    ensures { result ≡ separators_in separator tally }
{
    match separator {
        b'\t' => tally.tabs,
        b';' => tally.semicolons,
        _ => tally.commas,
    }
}

// How many fields a line has.
#[tactic(auto, using(crate::proofs::Lines::separators_low))]
fn fields(by: Parting, tally: Tally) -> usize
    requires { Low tally }
    ensures { result ≡ fields_in tally by }
{
    match by {
        Parting::Free | Parting::Words => tally.words,
        Parting::Fields(separator) => separators(separator, tally) + 1,
    }
}

// How many fields a line has by a parting that is given.
pub fn field_count(by: Parting, line: &[u8]) -> usize
    ensures { result ≡ fields_in (tally_of line.now) by }
{
    fields(by, tally_of(line))
}

// A first line without its carriage return.
fn head_of(line: &[u8]) -> Head
    ensures { result ≡ head_of line.now }
{
    let seen = tally_of(line);
    let by = parting_of(seen);
    Head {
        by,
        fields: fields(by, seen),
        digits: seen.digits,
        stop: line.len(),
    }
}

// A first line as it stands before its newline.
pub fn first_line(line: &[u8]) -> Head
    ensures { result ≡ head_of (content_of line.now) }
{
    head_of(&line[..content_length(line)])
}
