// A text of numbers, read.
#![tactic(auto)]

ghost use Rattle.std.specs.Prelude.{◌≡◌, length};
ghost use Rattle.chain.specs.Written.{over};
ghost use Rattle.places.specs.Places.{number_told, words_told};
ghost use Rattle.text.specs.Text.{numbers_in, numbers_of};
ghost use Rattle.text.specs.Inner.{ReadTo};

use places::{Fault, Refusal};
use text::Parting;

// A text of numbers after its mark.
fn read_numbers(text: &[u8], numbers: &mut [u32]) -> Result<(usize, usize), Refusal<Fault>>
    ensures { ReadTo (numbers_in text.now (length numbers.old)) numbers.old result numbers.new }
{
    if ends::is_cut(text) {
        return Err(places::cut_text(text));
    }
    match text::parse(Parting::Free, text, 0, numbers.len(), numbers) {
        Ok(n) => Ok((n, 0)),
        Err(flaw) => Err(places::refuse(text, flaw.fault, flaw.place, flaw.found, flaw.wanted)),
    }
}

// Reads a text of numbers over the front of the lent ones, and answers how many there are.
pub fn numbers(text: &[u8], numbers: &mut [u32], answer: &mut [u64; 8]) -> u32
    ensures value { result ≡ number_told (numbers_of text.now (length numbers.old)).answer }
    ensures answer_after { answer.new ≡ words_told (numbers_of text.now (length numbers.old)).answer }
    ensures numbers_after { numbers.new ≡ over (numbers_of text.now (length numbers.old)).numbers numbers.old }
{
    let start = ends::mark_length(text);
    let read = read_numbers(&text[start..], numbers);
    tell_text::tell_text(read, answer)
}
