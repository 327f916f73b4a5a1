// A sheet of packed fields, read.
#![tactic(auto)]

ghost use Rattle.std.specs.Prelude.{◌≡◌, map, ◌*◌, ◌≤◌, length};
ghost use Rattle.chain.specs.Judgement.{verdict_of, counted_of};
ghost use Rattle.chain.specs.Verdict.{in_order};
ghost use Rattle.chain.specs.Written.{over};
ghost use Rattle.packed.specs.Field.{field_bytes, amount_of, field_rule, fields_in};
ghost use Rattle.packed.specs.Packed.{readable_rule, unpack_answer, unpack_amounts};
ghost use Rattle.unpacking.specs.Inner.{StoreAsked};

use refusal::{Reason, Refusal};

// The first m fields in order: 18, then 19 of each.
#[tactic(auto, using(crate::proofs::Judging::reading_fields))]
fn judge_fields(bytes: &[u8], m: usize) -> Result<(), Refusal>
    requires { field_bytes * m ≤ length bytes.now }
    ensures { verdict_of result ≡ in_order field_rule 1 (fields_in m bytes.now) }
{
    for i in 0..m {
        packed::judge_field(bytes, packed::FIELD_BYTES * i, i + 1)?;
    }
    Ok(())
}

// 1, then 2, then the fields.
#[tactic(auto, using(chain::proofs::Rules::judging), unfolding(packed::specs::Packed::readable_rule))]
fn judge_readable(p: usize, q: usize, bytes: &[u8]) -> Result<(), Refusal>
    ensures { verdict_of result ≡ readable_rule p q bytes.now }
{
    shape::judge_sizes(p, q)?;
    let m = p * q;
    if bytes.len() != packed::FIELD_BYTES * m {
        return Err(Reason::Amounts.into());
    }
    judge_fields(bytes, m)
}

// The amounts of the first m fields, over the front.
fn store(bytes: &[u8], m: usize, amounts: &mut [u32])
    requires { StoreAsked bytes.now m amounts.old }
    ensures { amounts.new ≡ over (map amount_of (fields_in m bytes.now)) amounts.old }
{
    for i in 0..m {
        amounts[i] = packed::amount_at(bytes, packed::FIELD_BYTES * i);
    }
}

// Reads a sheet of fields: an amount for each, nothing where a field is refused.
pub fn unpack(p: usize, q: usize, bytes: &[u8], amounts: &mut [u32]) -> Result<usize, Refusal>
    ensures result_value { counted_of result ≡ unpack_answer p q bytes.now (length amounts.old) }
    ensures amounts_after { amounts.new ≡ unpack_amounts p q bytes.now amounts.old }
{
    judge_readable(p, q, bytes)?;
    let m = p * q;
    if amounts.len() < m {
        return Err(Reason::Room.into());
    }
    store(bytes, m, amounts);
    Ok(m)
}
