// From a sheet to a chain by one of the methods.
#![tactic(auto)]

ghost use Rattle.std.specs.Prelude.{◌≡◌, ◌/◌, ◌≤◌, length};
ghost use Rattle.chain.specs.Chain.{most_columns};
ghost use Rattle.chain.specs.Verdict.{fine};
ghost use Rattle.chain.specs.Judgement.{counted_of, answer_of};
ghost use Rattle.chain.specs.Inner.{counted_by};
ghost use Rattle.products.specs.Inner.{WithRoom};
ghost use Rattle.methods.specs.Inner.{LentRoom, ChainStored};
ghost use Rattle.quote.specs.ByMethod.{chain_of, count};
ghost use Rattle.quote.specs.Inner.{MeasuredFor};
ghost use Rattle.compile.specs.Compile.{accepted_rule, compile_answer, compile_steps, compile_outputs};
ghost use Rattle.compile.specs.Inner.{EmitAsked};
ghost use Rattle.answers.specs.Answers.{counts_in};

use answers::Counts;
use products::Progress;
use refusal::{Reason, Refusal};

// 1, 2, 3, 4: the number of steps where the sheet, the method and the parameter are accepted together; then the columns are measured too.
fn judge_accepted(
    p: usize,
    q: usize,
    amounts: &[u32],
    method: usize,
    k: usize,
    largest: &mut [u32],
) -> Result<usize, Refusal>
    requires { most_columns ≤ length largest.old }
    ensures result_value { counted_of result ≡ counted_by (accepted_rule p q amounts.now method k) (count p q amounts.now method k) }
    ensures measured_for { accepted_rule p q amounts.now method k ≡ fine → MeasuredFor method p q amounts.now largest.new }
{
    let quoted = quote::judge_quote(p, q, amounts, method, k, largest)?;
    shape::judge_length(chain::MOST_STEPS, quoted.count)?;
    Ok(quoted.count)
}

// The chain by its method: its steps, first and second in turn, and its outputs.
fn emit(
    p: usize,
    q: usize,
    amounts: &[u32],
    method: usize,
    k: usize,
    largest: &[u32],
    steps: &mut [u32],
    outputs: &mut [u32],
) -> Progress
    requires { WithRoom (EmitAsked p q amounts.now method k largest.now) (LentRoom q (count p q amounts.now method k) steps.old outputs.old) }
    ensures { ChainStored steps.old outputs.old steps.new outputs.new result
        (chain_of p q amounts.now method k) }
{
    match method {
        1 => straus_emit::emit(p, q, amounts, k, steps, outputs),
        2 => yao_emit::emit(p, q, amounts, k, largest, steps, outputs),
        _ => partition_emit::emit(p, q, amounts, k, largest, steps, outputs),
    }
}

// Compiles a sheet by the method of a number and its parameter.
pub fn compile(
    p: usize,
    q: usize,
    amounts: &[u32],
    method: usize,
    k: usize,
    steps: &mut [u32],
    outputs: &mut [u32],
) -> Result<Counts, Refusal>
    ensures result_value { answer_of counts_in result ≡ compile_answer p q amounts.now method k (length steps.old / 2) (length outputs.old) }
    ensures steps_after { steps.new ≡ compile_steps p q amounts.now method k (length outputs.old) steps.old }
    ensures outputs_after { outputs.new ≡ compile_outputs p q amounts.now method k (length steps.old / 2) outputs.old }
{
    let mut largest = [0u32; chain::MOST_COLUMNS];
    let n = judge_accepted(p, q, amounts, method, k, &mut largest)?;
    if steps.len() / 2 < n || outputs.len() < q {
        return Err(Reason::Room.into());
    }
    let made = emit(p, q, amounts, method, k, &largest, steps, outputs);
    Ok(answers::counts_of(made.steps, made.squarings))
}
