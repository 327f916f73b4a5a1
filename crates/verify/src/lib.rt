// The check of a chain against a sheet, in what the flat form and the form over step structs share: what is found before the steps, and the earlier of two places.
#![tactic(auto)]

ghost use Rattle.std.specs.Prelude.{◌≡◌};
ghost use Rattle.chain.specs.Judgement.{verdict_of};
ghost use Rattle.verify.specs.Verify.{earlier};
ghost use Rattle.verify.specs.Inner.{start_rule};

use refusal::Refusal;

// What is found of columns: the earliest step with too large an exponent and, while there is none, the earliest payslip that differs; 0 for none.
#[derive(Clone, Copy)]
pub struct Found {
    pub large: usize,
    pub other: usize,
}

// What is found before the n steps are looked at: 1, 4, 2.
#[tactic(auto, using(chain::proofs::Rules::judging, chain::proofs::Sizes::shape_columns, chain::proofs::Sizes::shape_payslips), unfolding(crate::specs::Inner::start_rule))]
pub fn judge_start(p: usize, q: usize, n: usize, amounts: &[u32]) -> Result<(), Refusal>
    ensures { verdict_of result ≡ start_rule p q n amounts.now }
{
    shape::judge_shape(chain::MOST_STEPS, p, q, n)?;
    sheet::judge_amounts(p, q, amounts)
}

// The earlier of two places, 0 being none.
pub fn earlier(a: usize, b: usize) -> usize
    ensures { result ≡ earlier a b }
{
    if b == 0 || a != 0 && a < b { a } else { b }
}
