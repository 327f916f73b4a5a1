// The run of a chain over residues, in what the flat form and the form over step structs share: what is found before and after the steps, and the
// values that stand before the first of them.
#![tactic(auto)]

ghost use Rattle.std.specs.Prelude.{nat_le, ◌≡◌, ◌∷◌, ◌+◌, ◌%◌, ◌≤◌, ◌<◌, length};
ghost use Rattle.std.specs.List.{list_any};
ghost use Rattle.chain.specs.Verdict.{◌then◌};
ghost use Rattle.chain.specs.Judgement.{verdict_of};
ghost use Rattle.chain.specs.Written.{over, laid};
ghost use Rattle.run.specs.Inner.{start_rule, figures_rule};

use refusal::{Reason, Refusal};

// Whether some number is not below the limit.
fn any_not_below(limit: u32, numbers: &[u32]) -> bool
    ensures { result ≡ list_any (λ x. nat_le limit x) numbers.now }
{
    numbers.iter().any(|x| limit <= *x)
}

// What is found against a run before its n steps are looked at: 1, 4, 15, 16.
#[tactic(auto, using(chain::proofs::Rules::judging, crate::proofs::Bases::telling_any), unfolding(crate::specs::Inner::start_rule))]
pub fn judge_start(p: usize, q: usize, n: usize, m: u32, bases: &[u32]) -> Result<(), Refusal>
    ensures { verdict_of result ≡ start_rule p q n m bases.now }
{
    shape::judge_shape(chain::MOST_STEPS, p, q, n)?;
    if m == 0 {
        return Err(Reason::Modulus.into());
    }
    if bases.len() != p || any_not_below(m, bases) {
        return Err(Reason::Bases.into());
    }
    Ok(())
}

// And after all else: 5 for fewer figures than outputs.
#[tactic(auto, using(chain::proofs::Rules::judging), unfolding(crate::specs::Inner::figures_rule))]
pub fn judge_figures(
    found: Result<(), Refusal>,
    outputs: usize,
    figures: usize,
) -> Result<(), Refusal>
    ensures { verdict_of result ≡ (verdict_of found then figures_rule outputs figures) }
{
    found?;
    if figures < outputs {
        return Err(Reason::Room.into());
    }
    Ok(())
}

// The numbers, from cell `at` on.
fn lay(numbers: &[u32], at: usize, cells: &mut [u32])
    requires { at + length numbers.now ≤ length cells.old }
    ensures { cells.new ≡ laid at numbers.now cells.old }
{
    for (i, x) in numbers.iter().enumerate() {
        cells[at + i] = *x;
    }
}

// Value 0 and the bases, over the front of the slice.
pub fn start(m: u32, bases: &[u32], values: &mut [u32])
    requires { (0 < m) × (length bases.now < length values.old) }
    ensures { values.new ≡ over (1 % m ∷ bases.now) values.old }
{
    values[0] = 1 % m;
    lay(bases, 1, values);
}
