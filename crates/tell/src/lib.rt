// How the answers of the entry points cross the C interface: the refusal's number is returned, 0 for none, and eight words are written: the values that
// the call answers, or the refusal's place, and zeros.
#![tactic(auto)]

ghost use Rattle.std.specs.Prelude.{List, ℕ, ◌≡◌};
ghost use Rattle.refusal.specs.Reasons.{number_of};
ghost use Rattle.chain.specs.Verdict.{done};
ghost use Rattle.chain.specs.Judgement.{answer_of, number_in};
ghost use Rattle.answers.specs.Answers.{counts_in, quote_in, size_in, chain_in, figures_in};
ghost use Rattle.tell.specs.Told.{words_of, chosen_in, answer_by};
ghost use Rattle.tell.specs.Inner.{WordsWritten, ToldAs};

use answers::{Chosen, Counts, Figures, FileSize, Quote, ReadChain};
use refusal::Refusal;

// What a call answers where nothing is refused, as words.
pub trait Told {
    ghost values: { Self → List ℕ };

    fn words(&self) -> [u64; 8]
        ensures { result ≡ words_of (done (values self.now)) };
}

// Why a call refuses, as it is told: a number, and a place.
pub trait Refuses {
    ghost number: { Self → ℕ };

    ghost place: { Self → ℕ };

    fn number(&self) -> u32
        ensures { result ≡ number self.now };

    fn place(&self) -> usize
        ensures { result ≡ place self.now };
}

// A number returned and five words, whatever they are; the other three are zeros.
pub fn tell_words(
    number: u32,
    a: usize,
    b: usize,
    c: usize,
    d: usize,
    e: usize,
    answer: &mut [u64; 8],
) -> u32
    ensures { WordsWritten number a b c d e result answer.new }
{
    *answer = [a as u64, b as u64, c as u64, d as u64, e as u64, 0, 0, 0];
    number
}

// The number returned, and the eight words, whatever the numbers of refusals are.
pub fn tell_any<T: Told + Copy, R: Refuses + Copy>(told: Result<T, R>, answer: &mut [u64; 8]) -> u32
    ensures { ToldAs (answer_by R.number R.place T.values told) result answer.new }
{
    match told {
        Ok(values) => {
            *answer = values.words();
            0
        }
        Err(refusal) => tell_words(refusal.number(), refusal.place(), 0, 0, 0, 0, answer),
    }
}

// The same for a refusal with a reason.
pub fn tell<T: Told + Copy>(told: Result<T, Refusal>, answer: &mut [u64; 8]) -> u32
    ensures { ToldAs (answer_of T.values told) result answer.new }
{
    tell_any(told, answer)
}

impl Refuses for Refusal {
    ghost number = { λ r. number_of r.reason };

    ghost place = { λ r. r.place };

    fn number(&self) -> u32 {
        self.reason.number()
    }

    fn place(&self) -> usize {
        self.place
    }
}

// A caller's numbers may be its own.
impl Refuses for (u32, usize) {
    ghost number = { λ r. r.0 };

    ghost place = { λ r. r.1 };

    fn number(&self) -> u32 {
        self.0
    }

    fn place(&self) -> usize {
        self.1
    }
}

// Bytes written, fields read or written, the length of a listing.
impl Told for usize {
    ghost values = { number_in };

    fn words(&self) -> [u64; 8] {
        [*self as u64, 0, 0, 0, 0, 0, 0, 0]
    }
}

impl Told for Counts {
    ghost values = { counts_in };

    fn words(&self) -> [u64; 8] {
        [
            self.steps as u64,
            self.squarings as u64,
            self.products as u64,
            0,
            0,
            0,
            0,
            0,
        ]
    }
}

impl Told for Quote {
    ghost values = { quote_in };

    fn words(&self) -> [u64; 8] {
        [self.count as u64, self.ceiling as u64, 0, 0, 0, 0, 0, 0]
    }
}

impl Told for FileSize {
    ghost values = { size_in };

    fn words(&self) -> [u64; 8] {
        [self.width as u64, self.bytes as u64, 0, 0, 0, 0, 0, 0]
    }
}

impl Told for ReadChain {
    ghost values = { chain_in };

    fn words(&self) -> [u64; 8] {
        [
            self.p as u64,
            self.q as u64,
            self.counts.steps as u64,
            self.counts.squarings as u64,
            self.counts.products as u64,
            0,
            0,
            0,
        ]
    }
}

impl Told for Figures {
    ghost values = { figures_in };

    fn words(&self) -> [u64; 8] {
        [
            self.compiled as u64,
            self.read as u64,
            self.made as u64,
            0,
            0,
            0,
            0,
            0,
        ]
    }
}

// The first file is 1, the second 2.
impl Told for Chosen {
    ghost values = { chosen_in };

    fn words(&self) -> [u64; 8] {
        let file = match self {
            Chosen::First => 1,
            Chosen::Second => 2,
        };
        [file, 0, 0, 0, 0, 0, 0, 0]
    }
}
