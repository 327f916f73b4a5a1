// Chains: their limits, their steps, and their values picked by outputs. The rules that chains are judged by, and the laws of legal chains and of
// exponents, stand beside in specs and proofs. Nothing here knows of methods, files or residues.
#![tactic(auto)]

ghost use Rattle.std.specs.Prelude.{List, ◌≡◌, ◌+◌, ◌*◌, ◌<◌, length, get_or};
ghost use Rattle.chain.specs.Chain.{by, pairs, pick};
ghost use Rattle.chain.specs.Written.{over};
ghost use Rattle.chain.specs.declared.Step;
ghost use Rattle.chain.specs.Inner.{step_at, SquaringCounted, FiguresAble};

// The limits (Spec 1.1, 2.1, 1.2): columns, payslips, steps, amounts.
pub const MOST_COLUMNS: usize = 16;

pub const MOST_PAYSLIPS: usize = 64;

pub const MOST_STEPS: usize = 16000;

pub const MOST_AMOUNT: u32 = 4294967295;

// How many values the longest chain has: the empty product, the bases and one for each step.
pub const MOST_VALUES: usize = MOST_COLUMNS + MOST_STEPS + 1;

// A step: the numbers of the two values that it multiplies. It is laid out as C does, since a slice of steps crosses the C interface.
#[repr(C)]
#[derive(Clone, Copy)]
pub struct Step {
    pub first: u32,
    pub second: u32,
}

// Step s of a flat list, counted from 0.
#[tactic(auto, unfolding(crate::specs::Inner::step_at))]
pub fn step_at(steps: &[u32], s: usize) -> Step
    requires { 2 * s + 1 < length steps.now }
    ensures { result ≡ step_at steps.now s }
{
    Step {
        first: steps[2 * s],
        second: steps[2 * s + 1],
    }
}

// The steps of a chain, in whatever form they are lent.
pub trait StepList {
    ghost list: { Self → List Step.Step };

    // How many there are.
    fn count(&self) -> usize
        ensures { result ≡ length (list self.now) };

    // Step s, counted from 0.
    fn at(&self, s: usize) -> Step
        requires { s < length (list self.now) }
        ensures { result ≡ get_or (list self.now) s (by 0 0) };
}

// Steps as flat numbers, first and second in turn; an odd last number belongs to no step.
#[derive(Clone, Copy)]
pub struct Flat<'a> {
    pub numbers: &'a [u32],
}

impl<'a> StepList for Flat<'a> {
    ghost list = { λ f. pairs f.numbers.now };

    fn count(&self) -> usize {
        self.numbers.len() / 2
    }

    fn at(&self, s: usize) -> Step {
        step_at(self.numbers, s)
    }
}

impl<'a> StepList for &'a [Step] {
    ghost list = { λ f. f.now };

    fn count(&self) -> usize {
        self.len()
    }

    fn at(&self, s: usize) -> Step {
        self[s]
    }
}

// 1 for a squaring, a step with equal operands, else 0. The operands are in order, so they are equal unless the second is below the first; a machine
// adds that up in one instruction.
#[tactic(auto, using(crate::proofs::Squarings::one_below, crate::proofs::Squarings::one_not_below))]
pub fn squaring(first: u32, second: u32) -> usize
    ensures { SquaringCounted (by first second) result }
{
    usize::from(first <= second)
}

// The outputs' values, over the front of the slice.
#[tactic(auto, using(crate::proofs::Picked::showing))]
pub fn show(outputs: &[u32], values: &[u32], figures: &mut [u32])
    requires { FiguresAble outputs.now (length values.now) (length figures.old) }
    ensures { figures.new ≡ over (pick values.now outputs.now) figures.old }
{
    for (j, v) in outputs.iter().enumerate() {
        figures[j] = values[*v as usize];
    }
}
