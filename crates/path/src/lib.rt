// The whole path from a sheet to its figures, as one function of five calls.
#![tactic(auto)]

ghost use Rattle.std.specs.Prelude.{◌≡◌};
ghost use Rattle.path.specs.Path.{lent, path_answer, path_leaves};
ghost use Rattle.path.specs.Demand3.{Demand3};
ghost use Rattle.chain.specs.Judgement.{answer_of};
ghost use Rattle.answers.specs.Answers.{figures_in};

use answers::Figures;
use refusal::Refusal;

// Demand 3's path: compile, write, read, check and run, each from exactly what the call before it filled. What is read stands in `received` and `results`.
pub fn sheet_to_figures(
    p: usize,
    q: usize,
    amounts: &[u32],
    method: usize,
    k: usize,
    m: u32,
    bases: &[u32],
    steps: &mut [u32],
    outputs: &mut [u32],
    bytes: &mut [u8],
    received: &mut [u32],
    results: &mut [u32],
    scratch: &mut [u32],
    values: &mut [u32],
    figures: &mut [u32],
) -> Result<Figures, Refusal>
    ensures result_value { answer_of figures_in result
        ≡ path_answer p q amounts.now method k
        (lent steps.old outputs.old bytes.old received.old results.old
        scratch.old values.old figures.old)
        m bases.now }
    ensures figures_after { lent steps.new outputs.new bytes.new received.new results.new
        scratch.new values.new figures.new
        ≡ path_leaves p q amounts.now method k
        (lent steps.old outputs.old bytes.old received.old results.old
        scratch.old values.old figures.old)
        m bases.now }
    ensures demand3 { Demand3 p q amounts.now method k m bases.now
        (lent steps.old outputs.old bytes.old received.old results.old
        scratch.old values.old figures.old)
        (answer_of figures_in result)
        (lent steps.new outputs.new bytes.new received.new results.new
        scratch.new values.new figures.new) }
{
    let compiled = compile::compile(p, q, amounts, method, k, steps, outputs)?;
    let sent = &steps[..2 * compiled.steps];
    let read = dispatch::dispatch(p, sent, &outputs[..q], bytes, received, results)?;
    let made = receive::receive(
        read.p,
        &received[..2 * read.counts.steps],
        &results[..read.q],
        amounts,
        m,
        bases,
        scratch,
        values,
        figures,
    )?;
    Ok(Figures {
        compiled: compiled.steps,
        read: read.counts.steps,
        made: made.steps,
    })
}
