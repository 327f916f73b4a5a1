// Two chains pooled into one.
#![tactic(auto)]

ghost use Rattle.std.specs.Prelude.{◌≡◌, ◌++◌, map, ◌+◌, ◌/◌, ◌^◌, ◌<◌, length, take};
ghost use Rattle.chain.specs.Chain.{pairs};
ghost use Rattle.chain.specs.Written.{over, laid};
ghost use Rattle.pool.specs.Pool.{part, renumbered, pool_answer, pool_steps, pool_outputs};
ghost use Rattle.chain.specs.Judgement.{answer_of};
ghost use Rattle.answers.specs.Answers.{counts_in};
ghost use Rattle.pooler.specs.Inner.{LayAsked, PutAsked};

use answers::Counts;
use refusal::{Reason, Refusal};

// How a part's value numbers become the pool's: those above p go up by n.
#[derive(Clone, Copy)]
struct Numbering {
    p: u32,
    n: u32,
}

// A value number of a part as the pool has it.
#[tactic(auto, using(crate::proofs::Laid::renumbering))]
fn renumber(to: Numbering, v: u32) -> u32
    requires { v + to.n < 2 ^ 32 }
    ensures { result ≡ renumbered to.p to.n v }
{
    if to.p < v {
        return v + to.n;
    }
    v
}

// The numbers, renumbered, from cell `at` on.
fn lay(to: Numbering, numbers: &[u32], at: usize, cells: &mut [u32])
    requires { LayAsked to numbers.now at cells.old }
    ensures { cells.new ≡ laid at (map (renumbered to.p to.n) numbers.now) cells.old }
{
    for (i, v) in numbers.iter().enumerate() {
        cells[at + i] = renumber(to, *v);
    }
}

// The first list as it is, then the second renumbered, over the front.
fn put(to: Numbering, first: &[u32], second: &[u32], cells: &mut [u32])
    requires { PutAsked to first.now second.now cells.old }
    ensures { cells.new ≡ over (first.now ++ map (renumbered to.p to.n) second.now) cells.old }
{
    lay(Numbering { p: to.p, n: 0 }, first, 0, cells);
    lay(to, second, first.len(), cells);
}

// Pools two chains over the same columns into the lent slices: the steps of the first, then those of the second, and so with the outputs.
pub fn pool(
    p1: usize,
    steps1: &[u32],
    outputs1: &[u32],
    p2: usize,
    steps2: &[u32],
    outputs2: &[u32],
    steps: &mut [u32],
    outputs: &mut [u32],
) -> Result<Counts, Refusal>
    ensures result_value { answer_of counts_in result ≡ pool_answer (part p1 (pairs steps1.now) outputs1.now)
        (part p2 (pairs steps2.now) outputs2.now) (length steps.old / 2) (length outputs.old) }
    ensures steps_after { steps.new ≡ pool_steps (part p1 (pairs steps1.now) outputs1.now)
        (part p2 (pairs steps2.now) outputs2.now) (length outputs.old) steps.old }
    ensures outputs_after { outputs.new ≡ pool_outputs (part p1 (pairs steps1.now) outputs1.now)
        (part p2 (pairs steps2.now) outputs2.now) (length steps.old / 2) outputs.old }
{
    let squarings = pool::judge_parts(p1, steps1, outputs1, p2, steps2, outputs2)?;
    let n1 = steps1.len() / 2;
    let n2 = steps2.len() / 2;
    if steps.len() / 2 < n1 + n2 || outputs.len() < outputs1.len() + outputs2.len() {
        return Err(Reason::Room.into());
    }
    let to = Numbering {
        p: p2 as u32,
        n: n1 as u32,
    };
    put(to, &steps1[..2 * n1], &steps2[..2 * n2], steps);
    put(to, outputs1, outputs2, outputs);
    Ok(answers::counts_of(n1 + n2, squarings))
}
