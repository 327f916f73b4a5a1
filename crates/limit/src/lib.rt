// Numbers held against a limit: the first that is above it is refused.
#![tactic(auto)]

ghost use Rattle.std.specs.Prelude.{◌≡◌};
ghost use Rattle.refusal.specs.Reasons.{number_of};
ghost use Rattle.chain.specs.Chain.{limit_rule};
ghost use Rattle.chain.specs.Judgement.{verdict_of};
ghost use Rattle.limit.specs.Numbered.{numbered_verdict};

use refusal::{Reason, Refusal};

// A refusal under a bare number: a caller's numbers may be its own.
#[derive(Clone, Copy, PartialEq, Eq)]
pub struct Numbered {
    pub number: u32,
    pub place: usize,
}

// A number above most, refused under a refusal's number, whatever that is; its place counts from 1.
#[tactic(auto, using(chain::proofs::Limits::limiting))]
pub fn judge_numbers(number: u32, most: usize, numbers: &[u32]) -> Result<(), Numbered>
    ensures { numbered_verdict result ≡ limit_rule number most 1 numbers.now }
{
    for (i, x) in numbers.iter().enumerate() {
        if most < *x as usize {
            return Err(Numbered {
                number,
                place: i + 1,
            });
        }
    }
    Ok(())
}

// The same, refused for a reason.
pub fn judge_by_reason(reason: Reason, most: usize, numbers: &[u32]) -> Result<(), Refusal>
    ensures { verdict_of result ≡ limit_rule (number_of reason) most 1 numbers.now }
{
    match judge_numbers(reason.number(), most, numbers) {
        Ok(()) => Ok(()),
        Err(found) => Err(Refusal {
            reason,
            place: found.place,
        }),
    }
}
