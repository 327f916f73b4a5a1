// Two chains that are to be one, judged: each as it stands and both together.
#![tactic(auto)]

ghost use Rattle.std.specs.Prelude.{◌≡◌, ◌+◌, ◌/◌, length};
ghost use Rattle.chain.specs.Judgement.{verdict_of, counted_of};
ghost use Rattle.chain.specs.Chain.{pairs, squarings_of};
ghost use Rattle.chain.specs.Inner.{counted_by};
ghost use Rattle.pool.specs.Pool.{part, counted, both_sizes_rule, both_lengths_rule, both_steps_rule, both_outputs_rule, poolable_rule};
ghost use Rattle.pool.specs.Inner.{CountAsked, StepsAsked, OutputsAsked};

use chain::Flat;
use refusal::{Reason, Refusal};

// 1 for each part and for both together.
#[tactic(auto, using(chain::proofs::Rules::judging), unfolding(crate::specs::Pool::both_sizes_rule))]
fn judge_sizes(p1: usize, q1: usize, p2: usize, q2: usize) -> Result<(), Refusal>
    ensures { verdict_of result ≡ both_sizes_rule p1 q1 p2 q2 }
{
    shape::judge_sizes(p1, q1)?;
    shape::judge_sizes(p2, q2)?;
    if chain::MOST_PAYSLIPS < q1 + q2 {
        return Err(Reason::Sizes.into());
    }
    Ok(())
}

// 4 for each part and for both together.
#[tactic(auto, using(chain::proofs::Rules::judging), unfolding(crate::specs::Pool::both_lengths_rule))]
fn judge_lengths(n1: usize, n2: usize) -> Result<(), Refusal>
    ensures { verdict_of result ≡ both_lengths_rule n1 n2 }
{
    shape::judge_length(chain::MOST_STEPS, n1)?;
    shape::judge_length(chain::MOST_STEPS, n2)?;
    shape::judge_length(chain::MOST_STEPS, n1 + n2)
}

// A refusal of the second part, its place counted on from the first part's.
#[tactic(auto, using(crate::proofs::Counted::counted_refused))]
fn count_on(before: usize, found: Refusal) -> Refusal
    requires { CountAsked before (verdict_of (Err found)) }
    ensures { verdict_of (Err result) ≡ counted before (verdict_of (Err found)) }
{
    Refusal {
        reason: found.reason,
        place: before + found.place,
    }
}

// The steps of the first part, then of the second, whose places count on; and how many of all are squarings.
#[tactic(auto, using(chain::proofs::Rules::judging, chain::proofs::Squarings::counting), unfolding(crate::specs::Pool::both_steps_rule))]
fn judge_steps(p1: usize, steps1: &[u32], p2: usize, steps2: &[u32]) -> Result<usize, Refusal>
    requires { StepsAsked p1 (length steps1.now / 2) p2 (length steps2.now / 2) }
    ensures { counted_of result ≡ counted_by (both_steps_rule p1 (pairs steps1.now) p2 (pairs steps2.now))
        (squarings_of (pairs steps1.now) + squarings_of (pairs steps2.now)) }
{
    let first = legal::judge_steps(p1, &Flat { numbers: steps1 })?;
    match legal::judge_steps(p2, &Flat { numbers: steps2 }) {
        Ok(second) => Ok(first + second),
        Err(found) => Err(count_on(steps1.len() / 2, found)),
    }
}

// 12 for the outputs of the first part, then of the second, whose places count on; top is the number of a part's last value.
#[tactic(auto, using(chain::proofs::Rules::judging, crate::proofs::Counted::counting_on), unfolding(crate::specs::Pool::both_outputs_rule))]
fn judge_outputs(
    top1: usize,
    outputs1: &[u32],
    top2: usize,
    outputs2: &[u32],
) -> Result<(), Refusal>
    requires { OutputsAsked (length outputs1.now) (length outputs2.now) }
    ensures { verdict_of result ≡ both_outputs_rule top1 outputs1.now top2 outputs2.now }
{
    legal::judge_outputs(top1, outputs1)?;
    match legal::judge_outputs(top2, outputs2) {
        Ok(()) => Ok(()),
        Err(found) => Err(count_on(outputs1.len(), found)),
    }
}

// All that is found against two parts before anything lent is looked at: 1, 17, 4, steps, 12; and how many of their steps are squarings.
#[tactic(auto, using(chain::proofs::Rules::judging, chain::proofs::Squarings::counting, chain::proofs::Pairs::length_pairs), unfolding(crate::specs::Pool::poolable_rule))]
pub fn judge_parts(
    p1: usize,
    steps1: &[u32],
    outputs1: &[u32],
    p2: usize,
    steps2: &[u32],
    outputs2: &[u32],
) -> Result<usize, Refusal>
    ensures { counted_of result ≡ counted_by (poolable_rule (part p1 (pairs steps1.now) outputs1.now)
        (part p2 (pairs steps2.now) outputs2.now))
        (squarings_of (pairs steps1.now) + squarings_of (pairs steps2.now)) }
{
    judge_sizes(p1, outputs1.len(), p2, outputs2.len())?;
    if p1 != p2 {
        return Err(Reason::Columns.into());
    }
    let n1 = steps1.len() / 2;
    let n2 = steps2.len() / 2;
    judge_lengths(n1, n2)?;
    let squarings = judge_steps(p1, steps1, p2, steps2)?;
    judge_outputs(p1 + n1, outputs1, p2 + n2, outputs2)?;
    Ok(squarings)
}
