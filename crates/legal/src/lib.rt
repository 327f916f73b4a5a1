// The steps and outputs of a chain, judged in their order: each step, then 12 of an output.
#![tactic(auto)]

ghost use Rattle.std.specs.Prelude.{◌≡◌, ◌/◌, length};
ghost use Rattle.chain.specs.Chain.{by, steps_rule, outputs_rule, chain_rule, squarings_of};
ghost use Rattle.chain.specs.Judgement.{verdict_of, counted_of};
ghost use Rattle.chain.specs.Inner.{counted_by};
ghost use Rattle.legal.specs.Inner.{ValuesFit, EqualCounted, Tallied};

use chain::StepList;
use refusal::{Reason, Refusal};

// What is counted of steps without telling them apart.
#[derive(Clone, Copy)]
struct Tally {
    legal: u32,
    squarings: u32,
}

// 1 for a squaring, else 0, of a step that may be any.
#[tactic(auto, using(chain::proofs::Squarings::one_equal, chain::proofs::Squarings::one_unequal))]
fn equal(first: u32, second: u32) -> u32
    ensures { EqualCounted (by first second) result }
{
    u32::from(first == second)
}

// How many of the steps are legal, and how many are squarings. Nearly every list is legal as a whole, and so all of it is counted, several steps at a
// time as compiled, and nothing is asked of a single one.
fn count_steps<S: StepList>(p: usize, steps: &S) -> Tally
    requires { ValuesFit p (length (S.list steps.now)) }
    ensures { Tallied p (S.list steps.now) result }
{
    let mut legal: u32 = 0;
    let mut squarings: u32 = 0;
    let mut v = (p + 1) as u32;
    for s in 0..steps.count() {
        let x = steps.at(s);
        legal += step::legal(v, x.first, x.second);
        squarings += equal(x.first, x.second);
        v += 1;
    }
    Tally { legal, squarings }
}

// The steps in order, each by itself.
#[tactic(auto, using(chain::proofs::Steps::stepping))]
fn judge_each<S: StepList>(p: usize, steps: &S) -> Result<(), Refusal>
    requires { ValuesFit p (length (S.list steps.now)) }
    ensures { verdict_of result ≡ steps_rule p 1 (S.list steps.now) }
{
    for s in 0..steps.count() {
        let x = steps.at(s);
        step::judge_step(p + s + 1, s + 1, x.first, x.second)?;
    }
    Ok(())
}

// The steps in order, and how many of them are squarings. Where some are not legal, the first of these is looked for.
#[tactic(auto, using(crate::proofs::Counting::all_legal, chain::proofs::Squarings::counting))]
pub fn judge_steps<S: StepList>(p: usize, steps: &S) -> Result<usize, Refusal>
    requires { ValuesFit p (length (S.list steps.now)) }
    ensures { counted_of result ≡ counted_by (steps_rule p 1 (S.list steps.now)) (squarings_of (S.list steps.now)) }
{
    let tally = count_steps(p, steps);
    let squarings = tally.squarings as usize;
    if tally.legal as usize != steps.count() {
        judge_each(p, steps)?;
    }
    Ok(squarings)
}

// 12: an output above top, the number of the last value.
pub fn judge_outputs(top: usize, outputs: &[u32]) -> Result<(), Refusal>
    ensures { verdict_of result ≡ outputs_rule top 1 outputs.now }
{
    limit::judge_by_reason(Reason::Output, top, outputs)
}

// The steps, then 12.
#[tactic(auto, using(chain::proofs::Rules::judging, chain::proofs::Squarings::counting), unfolding(chain::specs::Chain::chain_rule))]
pub fn judge_chain<S: StepList>(p: usize, steps: &S, outputs: &[u32]) -> Result<(), Refusal>
    requires { ValuesFit p (length (S.list steps.now)) }
    ensures { verdict_of result ≡ chain_rule p (S.list steps.now) outputs.now }
{
    judge_steps(p, steps)?;
    judge_outputs(p + steps.count(), outputs)
}
