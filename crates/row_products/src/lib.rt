// Products of rows of places, made in front of the slice in which the rows stand.
#![tactic(auto)]

ghost use Rattle.std.specs.Prelude.{◌+◌};
ghost use Rattle.std.proofs.Math.Seq.{slice};
ghost use Rattle.products.specs.Product.{made};
ghost use Rattle.products.specs.Inner.{steps_in, product_in, Emitted};
ghost use Rattle.clumps.specs.Levels.{product, products, separately};
ghost use Rattle.rows.specs.Inner.{row_at, rows_at};
ghost use Rattle.row_products.specs.Inner.{values_at, joined, ProductAsked, RowAsked, SeparatelyAsked, JoinAsked, Done};

use products::{PartialProduct, Progress};

// Where the rows begin: the steps of every chain that the levels make end before it.
pub const LISTS_FROM: usize = 150000;

// n inputs, whose values stand at a cell, and m outputs, rows of their places.
#[derive(Clone, Copy)]
pub struct Problem {
    pub ins: usize,
    pub n: usize,
    pub outs: usize,
    pub m: usize,
}

// m outputs, each the product of some of k clumps, whose values are made, and of some of n inputs.
#[derive(Clone, Copy)]
pub struct Joint {
    pub clumps: usize,
    pub made: usize,
    pub k: usize,
    pub rest: usize,
    pub ins: usize,
    pub n: usize,
    pub m: usize,
}

// The product times the values from a cell on that the places in the cells from .. to name.
fn product(
    p: usize,
    mut m: PartialProduct,
    values: usize,
    from: usize,
    to: usize,
    s: &mut [u32],
) -> PartialProduct
    requires { ProductAsked p s.old m.progress values from to }
    ensures { Emitted s.old s.new result.progress result.value
        (product p (product_in s.old m) (values_at s.old values (slice from to s.old))) }
{
    for i in from..to {
        let v = s[values + s[i] as usize];
        m = products::times(p, m, v, s);
    }
    m
}

// The product times the values that row j of those at a cell names.
#[tactic(auto, unfolding(rows::specs::Inner::row_at))]
fn times_row(
    p: usize,
    m: PartialProduct,
    values: usize,
    rows: usize,
    j: usize,
    s: &mut [u32],
) -> PartialProduct
    requires { RowAsked p s.old m.progress values rows j }
    ensures { Emitted s.old s.new result.progress result.value
        (product p (product_in s.old m) (values_at s.old values (row_at s.old rows j))) }
{
    let from = s[rows + j] as usize;
    let to = s[rows + j + 1] as usize;
    product(p, m, values, from, to, s)
}

// The product of the values that row j names, after the steps so far.
fn row_product(
    p: usize,
    progress: Progress,
    values: usize,
    rows: usize,
    j: usize,
    s: &mut [u32],
) -> PartialProduct
    requires { RowAsked p s.old progress values rows j }
    ensures { Emitted s.old s.new result.progress result.value
        (product p (made (steps_in s.old progress.steps) 0) (values_at s.old values (row_at s.old rows j))) }
{
    let start = PartialProduct { progress, value: 0 };
    times_row(p, start, values, rows, j, s)
}

// The product of each row's values, one after the other; their value numbers from cell `to` on.
pub fn separately(
    p: usize,
    problem: Problem,
    to: usize,
    mut done: Progress,
    s: &mut [u32],
) -> Progress
    requires { SeparatelyAsked p s.old problem to done }
    ensures { Done to result (separately p (slice problem.ins (problem.ins + problem.n) s.old)
        (rows_at s.old problem.outs problem.m) (steps_in s.old done.steps)) s.old s.new }
{
    for j in 0..problem.m {
        let r = row_product(p, done, problem.ins, problem.outs, j, s);
        done = r.progress;
        s[to + j] = r.value;
    }
    done
}

// The product of each row's clumps and then of its overflow, one after the other; their value numbers from cell `to` on.
pub fn join(p: usize, joint: Joint, to: usize, mut done: Progress, s: &mut [u32]) -> Progress
    requires { JoinAsked p s.old joint to done }
    ensures { Done to result (products p (joined s.old joint) (steps_in s.old done.steps)) s.old s.new }
{
    for j in 0..joint.m {
        let clumped = row_product(p, done, joint.made, joint.clumps, j, s);
        let both = times_row(p, clumped, joint.ins, joint.rest, j, s);
        done = both.progress;
        s[to + j] = both.value;
    }
    done
}
