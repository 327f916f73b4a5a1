// The choice between two files, by number.
#![tactic(auto)]

ghost use Rattle.std.specs.Prelude.{◌≡◌, ◌/◌, length};
ghost use Rattle.chain.specs.Judgement as judgement;
ghost use Rattle.answers.specs.Answers.{choice_of};
ghost use Rattle.choose.specs.Choose.{better, choose_rule, choice};
ghost use Rattle.choose.specs.Answers.{verdict_of, count_of};
ghost use Rattle.choose.specs.Inner.{Enough, FileJudged};

use answers::Chosen;
use refusal::{Reason, Refusal};

// 1, 2, then 5: what is found before either file, for so many pairs, outputs and numbers lent.
#[tactic(auto, using(chain::proofs::Rules::judging), unfolding(crate::specs::Choose::choose_rule))]
fn judge_lent(
    p: usize,
    q: usize,
    amounts: &[u32],
    pairs: usize,
    outputs: usize,
    numbers: usize,
) -> Result<(), Refusal>
    ensures { judgement.verdict_of result ≡ choose_rule p q amounts.now pairs outputs numbers }
{
    sheet::judge_sheet(p, q, amounts)?;
    if pairs < layout::EDITION_1_STEPS
        || outputs < chain::MOST_PAYSLIPS
        || numbers < layout::EDITION_1_VALUES
    {
        return Err(Reason::Room.into());
    }
    Ok(())
}

// The file with fewer steps, the first on equality; else the first file's refusal.
#[tactic(auto, using(chain::proofs::Rules::le_yes, chain::proofs::Rules::le_no), unfolding(crate::specs::Choose::better))]
fn better(x: Result<usize, Refusal>, y: Result<usize, Refusal>) -> Result<Chosen, Refusal>
    ensures { choice_of result ≡ better (verdict_of x) (verdict_of y) (count_of x) (count_of y) }
{
    match (x, y) {
        (Ok(m), Ok(n)) => if m <= n {
            Ok(Chosen::First)
        } else {
            Ok(Chosen::Second)
        },
        (Ok(_), Err(_)) => Ok(Chosen::First),
        (Err(_), Ok(_)) => Ok(Chosen::Second),
        (Err(refusal), Err(_)) => Err(refusal),
    }
}

// How many steps the file in the lent bytes has, where it reads and makes the sheet. The lent slices are large enough for any file.
fn judge_file(
    p: usize,
    q: usize,
    amounts: &[u32],
    bytes: &[u8],
    steps: &mut [u32],
    outputs: &mut [u32],
    numbers: &mut [u32],
) -> Result<usize, Refusal>
    requires { Enough (length steps.old / 2) (length outputs.old) (length numbers.old) }
    ensures { FileJudged p q amounts.now bytes.now result }
{
    let read = reading::read(bytes, steps, outputs)?;
    if read.p != p || read.q != q {
        return Err(Reason::Payslip.into());
    }
    let n = read.counts.steps;
    checker::verify(p, &steps[..2 * n], &outputs[..q], amounts, numbers)?;
    Ok(n)
}

// Which file is chosen.
pub fn decide(
    p: usize,
    q: usize,
    amounts: &[u32],
    a: &[u8],
    b: &[u8],
    steps: &mut [u32],
    outputs: &mut [u32],
    numbers: &mut [u32],
) -> Result<Chosen, Refusal>
    ensures { choice_of result ≡ choice p q amounts.now a.now b.now
        (length steps.old / 2) (length outputs.old) (length numbers.old) }
{
    judge_lent(p, q, amounts, steps.len() / 2, outputs.len(), numbers.len())?;
    let x = judge_file(p, q, amounts, a, steps, outputs, numbers);
    let y = judge_file(p, q, amounts, b, steps, outputs, numbers);
    better(x, y)
}
