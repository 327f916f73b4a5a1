// Digits of numbers in base 2^k, and powers of two.
#![tactic(auto)]

ghost use Rattle.std.specs.Prelude.{◌≡◌, ◌*◌, ◌^◌, ◌≤◌, ◌<◌};
ghost use Rattle.digits.specs.Digits.{digit_count, digit};
ghost use Rattle.digits.specs.Inner.{CountAsked};

// 2^e
pub fn power(e: usize) -> u32
    requires { e < 32 }
    ensures { result ≡ 2 ^ e }
{
    1u32 << e
}

// x moved up by e bits.
pub fn raised(x: u32, e: usize) -> u64
    requires { e ≤ 32 }
    ensures { result ≡ x * 2 ^ e }
{
    u64::from(x) << e
}

// How many digits x has in base 2^k: its bits, cut into digits. Digits of one bit are not cut, which spares a division.
#[tactic(auto, using(crate::proofs::Words::count_word, crate::proofs::Words::count_ones))]
pub fn digit_count(k: usize, x: u32) -> usize
    requires { CountAsked k }
    ensures { result ≡ digit_count k x }
{
    let bits = (u32::BITS - x.leading_zeros()) as usize;
    if k == 1 { bits } else { bits.div_ceil(k) }
}

// The digit of x with weight 2^(kj).
pub fn digit(k: usize, x: u32, j: usize) -> u32
    requires { (k < 32) × (k * j < 32) }
    ensures { result ≡ digit k x j }
{
    (x >> (k * j)) % power(k)
}
