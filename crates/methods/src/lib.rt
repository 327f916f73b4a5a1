// What the methods share: powers of the bases, and the squarings that make them.
#![tactic(auto)]

ghost use Rattle.std.specs.Prelude.{◌≡◌, ◌+◌, ◌^◌, ◌≤◌, ◌<◌, length};
ghost use Rattle.chain.specs.Chain.{most_columns};
ghost use Rattle.products.specs.Inner.{WithRoom, begun, StepsRoom, StepsStored};
ghost use Rattle.methods.specs.Powers.{counts_of, squarings, power_at};

use products::{PartialProduct, Progress};

// The value number of the base of column c after j squarings, which are made after value first.
#[tactic(auto, using(chain::proofs::Rules::eq_yes, chain::proofs::Rules::eq_no))]
pub fn power_at(c: usize, first: usize, j: usize) -> u32
    requires { (c + 1 < 2 ^ 32) × (first + j < 2 ^ 32) }
    ensures { result ≡ power_at c first j }
{
    if j == 0 {
        (c + 1) as u32
    } else {
        (first + j) as u32
    }
}

// The squarings of the columns' bases, column by column, as many for each as counts says, from the first step on.
pub fn square_columns(p: usize, counts: &[u32], steps: &mut [u32]) -> Progress
    requires { WithRoom (length counts.now ≤ most_columns) (StepsRoom p steps.old begun (squarings p (counts_of counts.now) (length counts.now))) }
    ensures { StepsStored steps.old steps.new result (squarings p (counts_of counts.now) (length counts.now)) }
{
    let mut progress = Progress {
        steps: 0,
        squarings: 0,
    };
    for (c, count) in counts.iter().enumerate() {
        let base = PartialProduct {
            progress,
            value: (c + 1) as u32,
        };
        progress = products::squared(p, *count as usize, base, steps).progress;
    }
    progress
}
