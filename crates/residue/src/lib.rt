// Residues: the product of two numbers modulo a third, without a division.
#![tactic(auto)]

ghost use Rattle.std.specs.Prelude.{◌≡◌, ◌*◌, ◌/◌, ◌^◌, ◌<◌};
ghost use Rattle.residue.specs.Residue.{times_mod};
ghost use Rattle.residue.specs.Inner.{inverse_of, TimesAsked};

// A number of 64 bits has two digits in this base.
const BASE: u64 = 4294967296;

// The upper 64 bits of a product of 128, digit by digit. The compiler knows this form and makes one multiplication of it.
fn high(u: u64, v: u64) -> u64
    ensures { result ≡ u * v / 2 ^ 64 }
{
    let u0 = u % BASE;
    let u1 = u / BASE;
    let v0 = v % BASE;
    let v1 = v / BASE;
    let middle = u1 * v0 + u0 * v0 / BASE;
    let next = middle % BASE + u0 * v1;
    u1 * v1 + middle / BASE + next / BASE
}

// What `times` keeps of a modulus: taken once, it spares every product its division.
pub fn inverse(m: u32) -> u64
    requires { 0 < m }
    ensures { result ≡ inverse_of m }
{
    u64::MAX / (m as u64)
}

// The product of two numbers of 32 bits modulo m, in 64 bits. The quotient taken is the right one or one less, so m is to be taken off what is left once
// more, unless that wraps.
pub fn times(x: u32, y: u32, m: u32, inverse: u64) -> u32
    requires { TimesAsked m inverse }
    ensures { result ≡ times_mod m x y }
{
    let product = (x as u64) * (y as u64);
    let modulus = m as u64;
    let left = product - high(product, inverse) * modulus;
    let less = std::num::wrapping_sub_u64(left, modulus);
    if less < 0x8000_0000_0000_0000 {
        less as u32
    } else {
        left as u32
    }
}
