// A chain judged from its steps on, by a call that is lent cells for its values: the steps, 12, then 5.
#![tactic(auto)]

ghost use Rattle.std.specs.Prelude.{◌≡◌, length};
ghost use Rattle.chain.specs.Verdict.{fine, ◌then◌};
ghost use Rattle.chain.specs.Chain.{squarings_of};
ghost use Rattle.chain.specs.Judgement.{verdict_of, counted_of};
ghost use Rattle.chain.specs.Inner.{counted_by};
ghost use Rattle.rest.specs.Inner.{EndAsked, end_rule, rest_rule};

use chain::StepList;
use refusal::{Reason, Refusal};

// After n steps: 12, then 5 where fewer cells are lent than there are values.
#[tactic(auto, using(chain::proofs::Rules::judging), unfolding(crate::specs::Inner::end_rule))]
pub fn judge_end(p: usize, n: usize, outputs: &[u32], cells: usize) -> Result<(), Refusal>
    requires { EndAsked p n }
    ensures { verdict_of result ≡ end_rule p n outputs.now cells }
{
    legal::judge_outputs(p + n, outputs)?;
    if cells < p + n + 1 {
        return Err(Reason::Room.into());
    }
    Ok(())
}

// What was found before the steps; where that is nothing, the steps, with how many of them are squarings, and what comes after them.
#[tactic(auto, using(chain::proofs::Rules::judging, chain::proofs::Squarings::counting), unfolding(crate::specs::Inner::rest_rule))]
pub fn judge_rest<S: StepList>(
    found: Result<(), Refusal>,
    p: usize,
    steps: &S,
    outputs: &[u32],
    cells: usize,
) -> Result<usize, Refusal>
    requires { verdict_of found ≡ fine → EndAsked p (length (S.list steps.now)) }
    ensures { counted_of result ≡ counted_by (verdict_of found then rest_rule p (S.list steps.now) outputs.now cells)
        (squarings_of (S.list steps.now)) }
{
    found?;
    let squarings = legal::judge_steps(p, steps)?;
    judge_end(p, steps.count(), outputs, cells)?;
    Ok(squarings)
}
