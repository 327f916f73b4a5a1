// Sheets: the number of amounts, and an amount by its payslip and column.
#![tactic(auto)]

ghost use Rattle.std.specs.Prelude.{◌≡◌, ◌+◌, ◌*◌, ◌<◌, length};
ghost use Rattle.chain.specs.Judgement.{verdict_of};
ghost use Rattle.chain.specs.Inner.{SizesLow};
ghost use Rattle.sheet.specs.Sheet.{amount, amounts_rule, sheet_rule};

use refusal::{Reason, Refusal};

// 2: the amounts are not p times q.
#[tactic(auto, using(chain::proofs::Rules::judging, crate::proofs::Amounts::product_low), unfolding(crate::specs::Sheet::amounts_rule))]
pub fn judge_amounts(p: usize, q: usize, amounts: &[u32]) -> Result<(), Refusal>
    requires { SizesLow p q }
    ensures { verdict_of result ≡ amounts_rule p q amounts.now }
{
    if amounts.len() != p * q {
        return Err(Reason::Amounts.into());
    }
    Ok(())
}

// 1, then 2.
#[tactic(auto, using(chain::proofs::Rules::judging, chain::proofs::Sizes::columns_low, chain::proofs::Sizes::payslips_low), unfolding(crate::specs::Sheet::sheet_rule))]
pub fn judge_sheet(p: usize, q: usize, amounts: &[u32]) -> Result<(), Refusal>
    ensures { verdict_of result ≡ sheet_rule p q amounts.now }
{
    shape::judge_sizes(p, q)?;
    judge_amounts(p, q, amounts)
}

// The amount of payslip i in column c, both counted from 0.
pub fn amount(p: usize, amounts: &[u32], i: usize, c: usize) -> u32
    requires { i * p + c < length amounts.now }
    ensures { result ≡ amount p amounts.now i c }
{
    amounts[i * p + c]
}
