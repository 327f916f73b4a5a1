// A chain received: checked against its sheet, then run.
#![tactic(auto)]

ghost use Rattle.chain.specs.Chain.{pairs};
ghost use Rattle.chain.specs.Judgement.{answer_of};
ghost use Rattle.answers.specs.Answers.{counts_in};
ghost use Rattle.receive.specs.Inner.{Received};

use answers::Counts;
use refusal::Refusal;

pub fn receive(
    p: usize,
    steps: &[u32],
    outputs: &[u32],
    amounts: &[u32],
    m: u32,
    bases: &[u32],
    scratch: &mut [u32],
    values: &mut [u32],
    figures: &mut [u32],
) -> Result<Counts, Refusal>
    ensures { Received p (pairs steps.now) outputs.now amounts.now m
        bases.now scratch.old values.old figures.old (answer_of counts_in result)
        scratch.new values.new figures.new }
{
    checker::verify(p, steps, outputs, amounts, scratch)?;
    runner::run(p, steps, outputs, m, bases, values, figures)
}
