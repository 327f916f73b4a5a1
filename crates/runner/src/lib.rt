// The run of a chain, whatever the form in which its steps are lent.
#![tactic(auto)]

ghost use Rattle.std.specs.Prelude.{◌≡◌, ◌+◌, length, take};
ghost use Rattle.chain.specs.Judgement.{counted_of, answer_of};
ghost use Rattle.chain.specs.Written.{over};
ghost use Rattle.chain.specs.Chain.{pairs, values, squarings_of};
ghost use Rattle.chain.specs.Inner.{counted_by};
ghost use Rattle.residue.specs.Residue.{times_mod};
ghost use Rattle.run.specs.Run.{residues, run_rule, run_answer, run_values, run_figures};
ghost use Rattle.answers.specs.Answers.{counts_in};
ghost use Rattle.runner.specs.Inner.{MultiplyAsked, FillAsked};

use answers::Counts;
use chain::{Flat, StepList};
use refusal::Refusal;

// What is found against a run, before anything is written: 1, 4, 15, 16, steps, 12, 5; and how many of the steps are squarings.
fn judge<S: StepList>(
    p: usize,
    steps: &S,
    outputs: &[u32],
    m: u32,
    bases: &[u32],
    room: usize,
    places: usize,
) -> Result<usize, Refusal>
    ensures { counted_of result ≡ counted_by (run_rule p (S.list steps.now) outputs.now m bases.now room places)
        (squarings_of (S.list steps.now)) }
{
    let begun = run::judge_start(p, outputs.len(), steps.count(), m, bases);
    let squarings = rest::judge_rest(begun, p, steps, outputs, room)?;
    run::judge_figures(Ok(()), outputs.len(), places)?;
    Ok(squarings)
}

// Each step's product, after the p + 1 values that stand in the slice. The modulus is inverted once for all of them.
fn multiply<S: StepList>(p: usize, steps: &S, m: u32, cells: &mut [u32])
    requires { MultiplyAsked p (S.list steps.now) m cells.old }
    ensures { cells.new ≡ over (values (times_mod m) (take (p + 1) cells.old) (S.list steps.now)) cells.old }
{
    let inverse = residue::inverse(m);
    for s in 0..steps.count() {
        let x = steps.at(s);
        let a = x.first as usize;
        let b = x.second as usize;
        cells[p + s + 1] = residue::times(cells[a], cells[b], m, inverse);
    }
}

// All values of the chain, over the front of the slice.
#[tactic(auto, using(run::proofs::Runnable::fill_all))]
fn fill<S: StepList>(p: usize, steps: &S, m: u32, bases: &[u32], values: &mut [u32])
    requires { FillAsked p (S.list steps.now) m bases.now values.old }
    ensures { values.new ≡ over (residues m bases.now (S.list steps.now)) values.old }
{
    run::start(m, bases, values);
    multiply(p, steps, m, values);
}

// Runs a chain over residues: its values 0 to p + n, its outputs' values as figures, and its counts, n being the multiplications made.
pub fn run_steps<S: StepList>(
    p: usize,
    steps: &S,
    outputs: &[u32],
    m: u32,
    bases: &[u32],
    values: &mut [u32],
    figures: &mut [u32],
) -> Result<Counts, Refusal>
    ensures result_value { answer_of counts_in result ≡ run_answer p (S.list steps.now) outputs.now m bases.now (length values.old)
        (length figures.old) }
    ensures values_after { values.new ≡ run_values p (S.list steps.now) outputs.now m bases.now
        (length figures.old) values.old }
    ensures figures_after { figures.new ≡ run_figures p (S.list steps.now) outputs.now m bases.now
        (length values.old) figures.old }
{
    let squarings = judge(p, steps, outputs, m, bases, values.len(), figures.len())?;
    fill(p, steps, m, bases, values);
    chain::show(outputs, values, figures);
    Ok(answers::counts_of(steps.count(), squarings))
}

// The same of steps that are lent flat.
pub fn run(
    p: usize,
    steps: &[u32],
    outputs: &[u32],
    m: u32,
    bases: &[u32],
    values: &mut [u32],
    figures: &mut [u32],
) -> Result<Counts, Refusal>
    ensures result_value { answer_of counts_in result ≡ run_answer p (pairs steps.now) outputs.now m bases.now (length values.old)
        (length figures.old) }
    ensures values_after { values.new ≡ run_values p (pairs steps.now) outputs.now m bases.now
        (length figures.old) values.old }
    ensures figures_after { figures.new ≡ run_figures p (pairs steps.now) outputs.now m bases.now
        (length values.old) figures.old }
{
    run_steps(
        p,
        &Flat { numbers: steps },
        outputs,
        m,
        bases,
        values,
        figures,
    )
}
