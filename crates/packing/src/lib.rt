// A sheet written as packed fields.
#![tactic(auto)]

ghost use Rattle.std.specs.Prelude.{◌≡◌, ◌<◌, length};
ghost use Rattle.chain.specs.Judgement.{verdict_of, counted_of};
ghost use Rattle.chain.specs.Written.{over, laid};
ghost use Rattle.packed.specs.Field.{field_of};
ghost use Rattle.packed.specs.Packed.{packed, writable_rule, pack_answer, pack_bytes};
ghost use Rattle.packing.specs.Inner.{pair_of, FieldAsked, StoreAsked};

use refusal::{Reason, Refusal};

// The largest amount that nine digits can say (Spec 1.4).
const MOST_PACKED: usize = 999999999;

// The byte of two digits.
fn pair(x: u32) -> u8
    requires { x < 100 }
    ensures { result ≡ pair_of x }
{
    (x / 10 * 16 + x % 10) as u8
}

// The field of an amount, from a byte on. The digits are parted two by two, and not one after the other.
fn put_field(amount: u32, at: usize, bytes: &mut [u8])
    requires { FieldAsked amount at bytes.old }
    ensures { bytes.new ≡ laid at (field_of amount) bytes.old }
{
    let first = amount / 100000;
    let rest = amount / 10 % 10000;
    bytes[at] = pair(first / 100);
    bytes[at + 1] = pair(first % 100);
    bytes[at + 2] = pair(rest / 100);
    bytes[at + 3] = pair(rest % 100);
    bytes[at + 4] = (amount % 10 * 16 + 12) as u8;
}

// The fields of all amounts, over the front.
fn store(amounts: &[u32], bytes: &mut [u8])
    requires { StoreAsked amounts.now bytes.old }
    ensures { bytes.new ≡ over (packed amounts.now) bytes.old }
{
    for (i, amount) in amounts.iter().enumerate() {
        put_field(*amount, packed::FIELD_BYTES * i, bytes);
    }
}

// 1, 2, then 20.
#[tactic(auto, using(chain::proofs::Rules::judging), unfolding(packed::specs::Packed::writable_rule))]
fn judge_writable(p: usize, q: usize, amounts: &[u32]) -> Result<(), Refusal>
    ensures { verdict_of result ≡ writable_rule p q amounts.now }
{
    sheet::judge_sheet(p, q, amounts)?;
    limit::judge_by_reason(Reason::Unpackable, MOST_PACKED, amounts)
}

// Writes a sheet as fields, each with plus; nothing where an amount is refused.
pub fn pack(p: usize, q: usize, amounts: &[u32], bytes: &mut [u8]) -> Result<usize, Refusal>
    ensures result_value { counted_of result ≡ pack_answer p q amounts.now (length bytes.old) }
    ensures bytes_after { bytes.new ≡ pack_bytes p q amounts.now bytes.old }
{
    judge_writable(p, q, amounts)?;
    if bytes.len() < packed::FIELD_BYTES * amounts.len() {
        return Err(Reason::Room.into());
    }
    store(amounts, bytes);
    Ok(amounts.len())
}
