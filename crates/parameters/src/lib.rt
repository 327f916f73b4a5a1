// The number of a method, and its own range of parameters.
#![tactic(auto)]

ghost use Rattle.std.specs.Prelude.{◌≡◌, ◌≤◌};
ghost use Rattle.chain.specs.Chain.{most_columns};
ghost use Rattle.chain.specs.Judgement.{verdict_of};
ghost use Rattle.parameters.specs.Parameters.{method_rule};

use refusal::{Reason, Refusal};

// The most bits that Straus looks at together: its columns times its parameter (Spec 3.1).
const STRAUS_BITS: usize = 10;

// 3: the number of a method, and its own range of parameters.
pub fn judge_method(p: usize, method: usize, k: usize) -> Result<(), Refusal>
    requires { p ≤ most_columns }
    ensures { verdict_of result ≡ method_rule p method k }
{
    match method {
        1 => match k {
            1..=5 => {
                if STRAUS_BITS < p * k {
                    return Err(Reason::Method.into());
                }
                Ok(())
            }
            _ => Err(Reason::Method.into()),
        },
        2 | 3 => match k {
            1..=8 => Ok(()),
            _ => Err(Reason::Method.into()),
        },
        _ => Err(Reason::Method.into()),
    }
}
