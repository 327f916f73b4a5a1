// The sizes of a chain, judged: 1 for p or q out of range, 4 for too many steps.
#![tactic(auto)]

ghost use Rattle.std.specs.Prelude.{◌≡◌};
ghost use Rattle.chain.specs.Chain.{sizes_rule, length_rule, shape_rule};
ghost use Rattle.chain.specs.Judgement.{verdict_of};

use refusal::{Reason, Refusal};

// 1: p or q out of range.
#[tactic(auto, using(chain::proofs::Rules::judging), unfolding(chain::specs::Chain::sizes_rule))]
pub fn judge_sizes(p: usize, q: usize) -> Result<(), Refusal>
    ensures { verdict_of result ≡ sizes_rule p q }
{
    if p < 1 || chain::MOST_COLUMNS < p || q < 1 || chain::MOST_PAYSLIPS < q {
        return Err(Reason::Sizes.into());
    }
    Ok(())
}

// 4: more steps than the limit.
#[tactic(auto, using(chain::proofs::Rules::judging), unfolding(chain::specs::Chain::length_rule))]
pub fn judge_length(limit: usize, n: usize) -> Result<(), Refusal>
    ensures { verdict_of result ≡ length_rule limit n }
{
    if limit < n {
        return Err(Reason::TooManySteps.into());
    }
    Ok(())
}

// 1, then 4.
#[tactic(auto, using(chain::proofs::Rules::judging), unfolding(chain::specs::Chain::shape_rule))]
pub fn judge_shape(limit: usize, p: usize, q: usize, n: usize) -> Result<(), Refusal>
    ensures { verdict_of result ≡ shape_rule limit p q n }
{
    judge_sizes(p, q)?;
    judge_length(limit, n)
}
