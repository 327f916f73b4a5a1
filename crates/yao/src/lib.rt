// Method 2, Yao: its definitions and laws, and how often a column is squared.
#![tactic(auto)]

ghost use Rattle.std.specs.Prelude.{◌+◌, ◌-◌, ◌*◌, ◌≤◌};
ghost use Rattle.digits.specs.Inner.{Bounded};
ghost use Rattle.yao.specs.Inner.{squarings_most};

// How often a column of so many digits is squared.
#[tactic(auto, using(crate::proofs::Measuring::squarings_few))]
pub fn squarings_of(k: usize, digits: usize) -> usize
    requires { k * digits ≤ 31 + k }
    ensures { Bounded result ((digits - 1) * k) squarings_most }
{
    digits.saturating_sub(1) * k
}
