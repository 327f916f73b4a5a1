// A column of the check: its beginning, what is taken up once its sums stand in the scratch, and the end of the check.
#![tactic(auto)]

ghost use Rattle.std.specs.Prelude.{◌≡◌, ◌+◌, ◌≤◌, ◌<◌, length, replicate};
ghost use Rattle.chain.specs.Written.{over};
ghost use Rattle.verify.specs.Verify.{first_other};
ghost use Rattle.chain.specs.Judgement.{answer_of};
ghost use Rattle.answers.specs.Answers.{counts_in};
ghost use Rattle.verify.specs.Inner.{column_start, Comparable, taken_up, found_in, Finished};

use answers::Counts;
use refusal::{Reason, Refusal};
use verify::Found;

// The first n cells 0.
fn clear(n: usize, scratch: &mut [u32])
    requires { n ≤ length scratch.old }
    ensures { scratch.new ≡ over (replicate n 0) scratch.old }
{
    scratch[..n].fill(0);
}

// Value 0 and the bases as column c has them, over the front of the scratch.
#[tactic(auto, using(verify::proofs::Beginning::column_started))]
pub fn start(p: usize, c: usize, scratch: &mut [u32])
    requires { (c < p) × (p < length scratch.old) }
    ensures { scratch.new ≡ column_start p c scratch.old }
{
    clear(p + 1, scratch);
    scratch[c + 1] = 1;
}

// The first payslip whose amount in column c is not what stands in the scratch for its output: its place, 0 for none.
#[tactic(auto, using(verify::proofs::Other::comparing, sheet::proofs::Amounts::amount_there))]
fn compare(p: usize, c: usize, outputs: &[u32], amounts: &[u32], scratch: &[u32]) -> usize
    requires { Comparable p c outputs.now amounts.now (length scratch.now) }
    ensures { result ≡ first_other p c amounts.now scratch.now 0 outputs.now }
{
    for (i, o) in outputs.iter().enumerate() {
        if scratch[*o as usize] != sheet::amount(p, amounts, i, c) {
            return i + 1;
        }
    }
    0
}

// What is found once column c stands in the scratch, up to the place whose exponent is too large. With one too large no payslip is looked at any more.
#[tactic(auto, using(verify::proofs::Columns::taken_large, verify::proofs::Columns::taken_other))]
pub fn take_up(
    found: Found,
    place: usize,
    p: usize,
    c: usize,
    outputs: &[u32],
    amounts: &[u32],
    scratch: &[u32],
) -> Found
    requires { Comparable p c outputs.now amounts.now (length scratch.now) }
    ensures { result ≡ taken_up found place p c amounts.now scratch.now outputs.now }
{
    let large = verify::earlier(found.large, place);
    if large != 0 {
        return Found {
            large,
            other: found.other,
        };
    }
    let other = verify::earlier(found.other, compare(p, c, outputs, amounts, scratch));
    Found { large, other }
}

// The first cells are cleared up to top; 13, then 14, or that the chain passed, with its counts.
#[tactic(auto, using(verify::proofs::Answers::finishing))]
pub fn finish(
    found: Found,
    counts: Counts,
    top: usize,
    scratch: &mut [u32],
) -> Result<Counts, Refusal>
    requires { top ≤ length scratch.old }
    ensures { Finished (found_in found) (counts_in counts) top scratch.old scratch.new (answer_of counts_in result) }
{
    clear(top, scratch);
    if found.large != 0 {
        return Err(Refusal {
            reason: Reason::Exponent,
            place: found.large,
        });
    }
    if found.other != 0 {
        return Err(Refusal {
            reason: Reason::Payslip,
            place: found.other,
        });
    }
    Ok(counts)
}
