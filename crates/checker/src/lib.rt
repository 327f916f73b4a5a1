// The check of a chain, whatever the form in which its steps are lent.
#![tactic(auto)]

ghost use Rattle.std.specs.Prelude.{◌≡◌, ◌+◌, length, take};
ghost use Rattle.chain.specs.Verdict.{◌then◌};
ghost use Rattle.chain.specs.Chain.{pairs, values, exponents, squarings_of};
ghost use Rattle.chain.specs.Judgement.{counted_of, answer_of};
ghost use Rattle.chain.specs.Inner.{StepsSound, counted_by};
ghost use Rattle.verify.specs.Verify.{exponents_rule, payslips_rule, fitting_rule, verify_answer, verify_scratch};
ghost use Rattle.answers.specs.Answers.{counts_in};
ghost use Rattle.verify.specs.Inner.{SummedUp, found_in, ColumnsHeld};
ghost use Rattle.checker.specs.Inner.{ColumnAsked, HoldAsked};

use answers::Counts;
use chain::{Flat, StepList};
use refusal::Refusal;
use verify::Found;

// What is found before the scratch is used: 1, 4, 2, steps, 12, 5; and how many of the steps are squarings.
fn judge<S: StepList>(
    p: usize,
    steps: &S,
    outputs: &[u32],
    amounts: &[u32],
    scratch: usize,
) -> Result<usize, Refusal>
    ensures { counted_of result ≡ counted_by (fitting_rule p (S.list steps.now) outputs.now amounts.now scratch)
        (squarings_of (S.list steps.now)) }
{
    let begun = verify::judge_start(p, outputs.len(), steps.count(), amounts);
    rest::judge_rest(begun, p, steps, outputs, scratch)
}

// One sum for each step, after the p + 1 values that stand in the scratch already, up to the first that is too large, which is not stored: its place,
// 0 for none.
fn sum<S: StepList>(p: usize, steps: &S, scratch: &mut [u32]) -> usize
    requires { StepsSound p (S.list steps.now) scratch.old }
    ensures { SummedUp p (values ◌+◌ (take (p + 1) scratch.old)) (S.list steps.now) scratch.old
        scratch.new result }
{
    for s in 0..steps.count() {
        let x = steps.at(s);
        let a = x.first as usize;
        let b = x.second as usize;
        let e = counting::plus(scratch[a], scratch[b]);
        if u64::from(chain::MOST_AMOUNT) < e {
            return s + 1;
        }
        scratch[p + s + 1] = e as u32;
    }
    0
}

// The exponents of column c into the scratch, up to the first that is too large: its place, 0 for none.
pub fn column<S: StepList>(p: usize, c: usize, steps: &S, scratch: &mut [u32]) -> usize
    requires { ColumnAsked p c (S.list steps.now) scratch.old }
    ensures { SummedUp p (exponents p c) (S.list steps.now) scratch.old scratch.new result }
{
    columns::start(p, c, scratch);
    sum(p, steps, scratch)
}

// What is found column by column: each place the earliest over all columns.
fn hold<S: StepList>(
    p: usize,
    steps: &S,
    outputs: &[u32],
    amounts: &[u32],
    scratch: &mut [u32],
) -> Found
    requires { HoldAsked p (S.list steps.now) outputs.now amounts.now scratch.old }
    ensures { ColumnsHeld (found_in result) (exponents_rule p (S.list steps.now) then payslips_rule p amounts.now
        (S.list steps.now) outputs.now) (p + length (S.list steps.now) + 1) scratch.old
        scratch.new }
{
    let mut found = Found { large: 0, other: 0 };
    for c in 0..p {
        let place = column(p, c, steps, scratch);
        found = columns::take_up(found, place, p, c, outputs, amounts, scratch);
    }
    found
}

// Whether a chain makes a sheet. Where the scratch was used (13, 14, passing) its first p + n + 1 cells are cleared; else it is as it was.
pub fn verify_steps<S: StepList>(
    p: usize,
    steps: &S,
    outputs: &[u32],
    amounts: &[u32],
    scratch: &mut [u32],
) -> Result<Counts, Refusal>
    ensures result_value { answer_of counts_in result ≡ verify_answer p (S.list steps.now) outputs.now amounts.now
        (length scratch.old) }
    ensures scratch_after { scratch.new ≡ verify_scratch p (S.list steps.now) outputs.now amounts.now scratch.old }
{
    let squarings = judge(p, steps, outputs, amounts, scratch.len())?;
    let n = steps.count();
    let found = hold(p, steps, outputs, amounts, scratch);
    columns::finish(found, answers::counts_of(n, squarings), p + n + 1, scratch)
}

// The same of steps that are lent flat.
pub fn verify(
    p: usize,
    steps: &[u32],
    outputs: &[u32],
    amounts: &[u32],
    scratch: &mut [u32],
) -> Result<Counts, Refusal>
    ensures result_value { answer_of counts_in result ≡ verify_answer p (pairs steps.now) outputs.now amounts.now
        (length scratch.old) }
    ensures scratch_after { scratch.new ≡ verify_scratch p (pairs steps.now) outputs.now amounts.now scratch.old }
{
    verify_steps(p, &Flat { numbers: steps }, outputs, amounts, scratch)
}
