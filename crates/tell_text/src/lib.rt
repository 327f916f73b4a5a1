// How what a text answers crosses the C interface: the refusal's number is returned, 0 for none, and eight words are written.
#![tactic(auto)]

ghost use Rattle.std.specs.Prelude.{ℕ, ◌≡◌};
ghost use Rattle.places.specs.Faults.{number_of};
ghost use Rattle.places.specs.Inner.{ReadTold};

use places::{Fault, Refusal};

// What a refusal's number is told by: a fault, or a number as it is.
pub trait HasNumber {
    ghost number: { Self → ℕ };

    fn number(&self) -> u32
        ensures { result ≡ number self.now };
}

impl HasNumber for Fault {
    ghost number = { number_of };

    fn number(&self) -> u32 {
        Fault::number(*self)
    }
}

// A caller's numbers may be its own.
impl HasNumber for u32 {
    ghost number = { λ n. n };

    fn number(&self) -> u32 {
        *self
    }
}

// What a text answered.
pub fn tell_text<F: HasNumber + Copy>(
    read: Result<(usize, usize), Refusal<F>>,
    answer: &mut [u64; 8],
) -> u32
    ensures { ReadTold F.number read result answer.new }
{
    match read {
        Ok((a, b)) => {
            *answer = [a as u64, b as u64, 0, 0, 0, 0, 0, 0];
            0
        }
        Err(refusal) => tell::tell_words(
            refusal.fault.number(),
            refusal.spot.line,
            refusal.spot.column,
            refusal.found,
            refusal.wanted,
            0,
            answer,
        ),
    }
}
