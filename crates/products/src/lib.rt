// Products in the making: steps go into a lent flat slice, first and second in turn; the numbers of steps and of values say where. Squarings are counted
// as they are put.
#![tactic(auto)]

ghost use Rattle.std.specs.Prelude.{◌≡◌, [], ◌∷◌, ◌++◌};
ghost use Rattle.products.specs.Product.{ordered, times, squared};
ghost use Rattle.products.specs.Inner.{steps_in, product_in, MoreRoom, StepsRoom, StepsStored, Emitted};

use chain::Step;

// How many steps there are so far, and how many of them are squarings.
#[derive(Clone, Copy)]
pub struct Progress {
    pub steps: usize,
    pub squarings: usize,
}

// A product in the making: the steps so far, and the number of its value; 0 is the empty product.
#[derive(Clone, Copy)]
pub struct PartialProduct {
    pub progress: Progress,
    pub value: u32,
}

// The step that multiplies two values: the larger number first.
fn ordered(a: u32, b: u32) -> Step
    ensures { result ≡ ordered a b }
{
    Step {
        first: a.max(b),
        second: a.min(b),
    }
}

// One step more: the larger value, then the smaller.
pub fn put(progress: Progress, a: u32, b: u32, steps: &mut [u32]) -> Progress
    requires { MoreRoom steps.old progress 1 }
    ensures { StepsStored steps.old steps.new result (steps_in steps.old progress.steps ++ ordered a b ∷ []) }
{
    let n = progress.steps;
    let step = ordered(a, b);
    steps[2 * n] = step.first;
    steps[2 * n + 1] = step.second;
    Progress {
        steps: n + 1,
        squarings: progress.squarings + chain::squaring(step.first, step.second),
    }
}

// The product times value y, for p columns.
pub fn times(p: usize, m: PartialProduct, y: u32, steps: &mut [u32]) -> PartialProduct
    requires { StepsRoom p steps.old m.progress (times p (product_in steps.old m) y).steps }
    ensures { Emitted steps.old steps.new result.progress result.value (times p (product_in steps.old m) y) }
{
    if m.value == 0 {
        return PartialProduct { value: y, ..m };
    }
    if y == 0 {
        return m;
    }
    PartialProduct {
        progress: put(m.progress, m.value, y, steps),
        value: (p + m.progress.steps + 1) as u32,
    }
}

// The product squared k times.
pub fn squared(p: usize, k: usize, m: PartialProduct, steps: &mut [u32]) -> PartialProduct
    requires { StepsRoom p steps.old m.progress (squared p k (product_in steps.old m)).steps }
    ensures { Emitted steps.old steps.new result.progress result.value (squared p k (product_in steps.old m)) }
{
    let mut r = m;
    for _ in 0..k {
        r = times(p, r, r.value, steps);
    }
    r
}
