// Packed decimal: the fields of a slice of bytes, judged and read.
#![tactic(auto)]

ghost use Rattle.std.specs.Prelude.{◌≡◌, ◌+◌, ◌/◌, ◌≤◌, length};
ghost use Rattle.chain.specs.Judgement.{verdict_of};
ghost use Rattle.digits.specs.Inner.{Bounded};
ghost use Rattle.packed.specs.Field.{field_bytes, amount_of, field_rule, field_from};
ghost use Rattle.packed.specs.Inner.{digit_pair, pairs_at, sign_rule, said_by};

use refusal::{Reason, Refusal};

// How many bytes a field has (Spec 1.4).
pub const FIELD_BYTES: usize = 5;

// 1 for a byte of two digits, else 0.
#[tactic(auto, using(chain::proofs::Rules::tests), unfolding(crate::specs::Inner::digit_pair))]
fn digit_pair(byte: u8) -> usize
    ensures { Bounded result (digit_pair byte) 1 }
{
    usize::from(byte < 160 && byte % 16 < 10)
}

// How many of the four bytes from one on are two digits each. They are counted, not tested one after the other: nearly every field is a good one.
fn count_pairs(bytes: &[u8], at: usize) -> usize
    requires { at + field_bytes ≤ length bytes.now }
    ensures { result ≡ pairs_at bytes.now at }
{
    digit_pair(bytes[at])
        + digit_pair(bytes[at + 1])
        + digit_pair(bytes[at + 2])
        + digit_pair(bytes[at + 3])
}

// The sign of field i: fine for plus and unsigned, 19 for minus, 18 for what is none.
fn judge_sign(sign: u8, i: usize) -> Result<(), Refusal>
    ensures { verdict_of result ≡ sign_rule i sign }
{
    let reason = match sign {
        12 => return Ok(()),
        15 => return Ok(()),
        13 => Reason::Minus,
        _ => Reason::Field,
    };
    Err(Refusal { reason, place: i })
}

// Field i, which begins at a byte: 18, then 19.
pub fn judge_field(bytes: &[u8], at: usize, i: usize) -> Result<(), Refusal>
    requires { at + field_bytes ≤ length bytes.now }
    ensures { verdict_of result ≡ field_rule i (field_from bytes.now at) }
{
    let last = bytes[at + 4];
    if count_pairs(bytes, at) < 4 || 160 <= last {
        return Err(Refusal {
            reason: Reason::Field,
            place: i,
        });
    }
    judge_sign(last % 16, i)
}

// What two half-bytes say as digits.
fn said_by(byte: u8) -> u32
    ensures { Bounded result (said_by byte) 165 }
{
    let b = u32::from(byte);
    b / 16 * 10 + b % 16
}

// What the first of them says alone.
fn first_said_by(byte: u8) -> u32
    ensures { Bounded result (byte / 16) 15 }
{
    u32::from(byte / 16)
}

// The amount of the field that begins at a byte. The digits are added from the last pair to the first: in this order the compiler takes four bytes at a
// time.
pub fn amount_at(bytes: &[u8], at: usize) -> u32
    requires { at + field_bytes ≤ length bytes.now }
    ensures { result ≡ amount_of (field_from bytes.now at) }
{
    said_by(bytes[at + 3]) * 10
        + said_by(bytes[at + 2]) * 1000
        + said_by(bytes[at + 1]) * 100000
        + said_by(bytes[at]) * 10000000
        + first_said_by(bytes[at + 4])
}
