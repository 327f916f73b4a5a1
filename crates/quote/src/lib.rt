// The number of steps of what a method makes of a sheet, and its ceiling, by the method's number.
#![tactic(auto)]

ghost use Rattle.std.specs.Prelude.{◌≡◌, ◌*◌, ◌≤◌, length};
ghost use Rattle.chain.specs.Chain.{most_columns};
ghost use Rattle.chain.specs.Verdict.{fine};
ghost use Rattle.methods.specs.Inner.{QuoteOf};
ghost use Rattle.quote.specs.ByMethod.{method_of, count_rule, ceiling_answer};
ghost use Rattle.quote.specs.Inner.{MeasuredFor, QuoteAsked};
ghost use Rattle.chain.specs.Judgement.{answer_of};
ghost use Rattle.answers.specs.Answers.{quote_in};

use answers::Quote;
use refusal::Refusal;

// The largest amount of each column, for the methods that go by it: all but Straus.
fn measure(p: usize, q: usize, amounts: &[u32], method: usize, largest: &mut [u32])
    requires { (p ≤ length largest.old) × (length amounts.now ≡ p * q) }
    ensures { MeasuredFor method p q amounts.now largest.new }
{
    if method != 1 {
        measuring::measure_columns(p, q, amounts, largest);
    }
}

// The number of steps and the ceiling, by the method.
fn quote(p: usize, q: usize, amounts: &[u32], method: usize, k: usize, largest: &[u32]) -> Quote
    requires { QuoteAsked p q amounts.now method k largest.now }
    ensures { QuoteOf result (method_of p q amounts.now method k) }
{
    match method {
        1 => straus_count::quote(p, q, amounts, k),
        2 => yao_count::quote(p, q, amounts, k, largest),
        _ => partition_count::quote(p, q, amounts, k, largest),
    }
}

// 1, 2, 3; where none applies the number of steps and the ceiling, and then the columns are measured too.
pub fn judge_quote(
    p: usize,
    q: usize,
    amounts: &[u32],
    method: usize,
    k: usize,
    largest: &mut [u32],
) -> Result<Quote, Refusal>
    requires { most_columns ≤ length largest.old }
    ensures result_value { answer_of quote_in result ≡ ceiling_answer p q amounts.now method k }
    ensures measured_for { count_rule p q amounts.now method k ≡ fine → MeasuredFor method p q amounts.now largest.new }
{
    sheet::judge_sheet(p, q, amounts)?;
    parameters::judge_method(p, method, k)?;
    measure(p, q, amounts, method, largest);
    Ok(quote(p, q, amounts, method, k, largest))
}

// The number of steps of the chain that a method makes of a sheet, and its ceiling.
pub fn ceiling(
    p: usize,
    q: usize,
    amounts: &[u32],
    method: usize,
    k: usize,
) -> Result<Quote, Refusal>
    ensures { answer_of quote_in result ≡ ceiling_answer p q amounts.now method k }
{
    let mut largest = [0u32; chain::MOST_COLUMNS];
    judge_quote(p, q, amounts, method, k, &mut largest)
}
