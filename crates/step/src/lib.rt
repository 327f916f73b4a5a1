// A step, judged: 9, 10, 11; or counted, if it is legal.
#![tactic(auto)]

ghost use Rattle.std.specs.Prelude.{◌≡◌};
ghost use Rattle.chain.specs.Chain.{by, step_rule};
ghost use Rattle.chain.specs.Judgement.{verdict_of};
ghost use Rattle.step.specs.Inner.{LegalCounted};

use refusal::{Reason, Refusal};

// Step s, which makes value v. Three tests pass a legal step; any other goes through all of them in their order.
#[tactic(auto, using(crate::proofs::ThreeTests::judging_step), unfolding(chain::specs::Chain::step_rule))]
pub fn judge_step(v: usize, s: usize, first: u32, second: u32) -> Result<(), Refusal>
    ensures { verdict_of result ≡ step_rule v s (by first second) }
{
    let a = first as usize;
    let b = second as usize;
    if b != 0 && b <= a && a < v {
        return Ok(());
    }
    let reason = if a == 0 || b == 0 {
        Reason::EmptyOperand
    } else if v <= a || v <= b {
        Reason::LateOperand
    } else {
        Reason::OperandOrder
    };
    Err(Refusal { reason, place: s })
}

// 1 for a step that may make value v, else 0: a number to add up, so that a pass over many steps has no jump that hangs on one of them.
#[tactic(auto, using(crate::proofs::ThreeTests::counting_step))]
pub fn legal(v: u32, first: u32, second: u32) -> u32
    ensures { LegalCounted v (by first second) result }
{
    u32::from(second != 0 && second <= first && first < v)
}
