// Method 1, Straus: the number of steps and its ceiling, without making the steps.
#![tactic(auto)]

ghost use Rattle.methods.specs.Inner.{QuoteOf, QuoteWithin};
ghost use Rattle.straus.specs.Straus.{straus_payslip_count, straus_payslip_ceiling, straus_method};
ghost use Rattle.straus.specs.Inner.{StrausAsked, PayslipAsked};
ghost use Rattle.straus_count.specs.Inner.{straus_payslip_most};

use answers::Quote;

// The steps of payslip i, and its part of the ceiling.
fn payslip_quote(p: usize, amounts: &[u32], k: usize, i: usize) -> Quote
    requires { PayslipAsked p amounts.now k i }
    ensures { QuoteWithin result (straus_payslip_count p amounts.now k i) (straus_payslip_ceiling p amounts.now k i) straus_payslip_most }
{
    let all = straus::overlaid(p, amounts, i);
    let lower = counting::lessened(digits::digit_count(k, all), 1);
    let squarings = lower * k;
    let mut count = squarings;
    for j in 0..lower {
        count += counting::sign(digits::digit(k, all, j));
    }
    Quote {
        count,
        ceiling: squarings + lower,
    }
}

// The number of steps of the chain, and its ceiling.
#[tactic(auto, using(crate::proofs::Counting::columns_below))]
pub fn quote(p: usize, q: usize, amounts: &[u32], k: usize) -> Quote
    requires { StrausAsked p q amounts.now k }
    ensures { QuoteOf result (straus_method p q amounts.now k) }
{
    let table = digits::power(p * k) as usize - p - 1;
    let mut count = table;
    let mut ceiling = table;
    for i in 0..q {
        let payslip = payslip_quote(p, amounts, k, i);
        count += payslip.count;
        ceiling += payslip.ceiling;
    }
    Quote { count, ceiling }
}
