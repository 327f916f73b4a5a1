// The check and the run of a chain that is lent as a slice of steps: those of any steps, on the slice as it stands.
#![tactic(auto)]

ghost use Rattle.std.specs.Prelude.{◌≡◌, length};
ghost use Rattle.chain.specs.Judgement.{answer_of};
ghost use Rattle.run.specs.Run.{run_answer, run_values, run_figures};
ghost use Rattle.answers.specs.Answers.{counts_in};
ghost use Rattle.verify.specs.Verify.{verify_answer, verify_scratch};

use answers::Counts;
use chain::Step;
use refusal::Refusal;

// The run of a chain that is lent as its steps.
pub fn run_pairs(
    p: usize,
    steps: &[Step],
    outputs: &[u32],
    m: u32,
    bases: &[u32],
    values: &mut [u32],
    figures: &mut [u32],
) -> Result<Counts, Refusal>
    ensures result_value { answer_of counts_in result ≡ run_answer p steps.now outputs.now m bases.now
        (length values.old) (length figures.old) }
    ensures values_after { values.new ≡ run_values p steps.now outputs.now m bases.now
        (length figures.old) values.old }
    ensures figures_after { figures.new ≡ run_figures p steps.now outputs.now m bases.now
        (length values.old) figures.old }
{
    runner::run_steps(p, &steps, outputs, m, bases, values, figures)
}

// The check of a chain that is lent as its steps.
pub fn verify_pairs(
    p: usize,
    steps: &[Step],
    outputs: &[u32],
    amounts: &[u32],
    scratch: &mut [u32],
) -> Result<Counts, Refusal>
    ensures result_value { answer_of counts_in result ≡ verify_answer p steps.now outputs.now amounts.now
        (length scratch.old) }
    ensures scratch_after { scratch.new
        ≡ verify_scratch p steps.now outputs.now amounts.now scratch.old }
{
    checker::verify_steps(p, &steps, outputs, amounts, scratch)
}
