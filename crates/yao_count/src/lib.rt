// Method 2, Yao: the number of steps and its ceiling, without making the steps.
#![tactic(auto)]

ghost use Rattle.std.specs.Prelude.{◌+◌, ◌*◌, ◌≤◌, ◌<◌};
ghost use Rattle.chain.specs.Chain.{most_columns};
ghost use Rattle.digits.specs.Range.{sum_to};
ghost use Rattle.digits.specs.Inner.{Bounded};
ghost use Rattle.methods.specs.Inner.{AskedByLargest, QuoteOf, QuoteWithin};
ghost use Rattle.yao.specs.Yao.{amount_count, amount_ceiling, yao_payslip_count, yao_payslip_ceiling, yao_method, yao_most};
ghost use Rattle.yao.specs.Inner.{DigitsFew, YaoAsked, YaoPayslipAsked, squarings_in, squarings_most};
ghost use Rattle.yao_count.specs.Inner.{amount_most, yao_payslip_most};

use answers::Quote;

// How often the p columns measured are squared.
fn squaring_count(p: usize, k: usize, columns: &[u32]) -> usize
    requires { (p ≤ most_columns) × DigitsFew k p columns.now }
    ensures { Bounded result (sum_to p (squarings_in k columns.now)) (squarings_most * most_columns) }
{
    let mut n: usize = 0;
    for digits in &columns[..p] {
        n += yao::squarings_of(k, *digits as usize);
    }
    n
}

// The steps of an amount x in a column of so many digits.
fn amount_count(k: usize, digits: usize, x: u32) -> usize
    requires { (0 < k) × (k ≤ yao_most) × (k * digits ≤ 31 + k) }
    ensures { Bounded result (amount_count k digits x) amount_most }
{
    let mut nonzero: usize = 0;
    let mut largest: u32 = 0;
    for j in 0..digits {
        let d = digits::digit(k, x, j);
        nonzero += counting::sign(d);
        largest = counting::larger(largest, d);
    }
    counting::lessened(nonzero + largest as usize, 2)
}

// The ceiling's part for an amount x in a column of so many digits.
fn amount_ceiling(k: usize, digits: usize, x: u32) -> usize
    requires { (0 < k) × (k ≤ yao_most) × (k * digits ≤ 31 + k) }
    ensures { Bounded result (amount_ceiling k digits x) amount_most }
{
    if x == 0 {
        0
    } else {
        counting::lessened(digits + digits::power(k) as usize, 3)
    }
}

// The steps of payslip i, and its part of the ceiling.
fn payslip_quote(p: usize, q: usize, amounts: &[u32], k: usize, columns: &[u32], i: usize) -> Quote
    requires { YaoPayslipAsked p q amounts.now k columns.now i }
    ensures { QuoteWithin result (yao_payslip_count p q amounts.now k i) (yao_payslip_ceiling p q amounts.now k i) yao_payslip_most }
{
    let mut count: usize = 0;
    let mut ceiling: usize = 0;
    let mut nonzero: usize = 0;
    for (c, digits) in columns[..p].iter().enumerate() {
        let digits = *digits as usize;
        let x = sheet::amount(p, amounts, i, c);
        count += amount_count(k, digits, x);
        ceiling += amount_ceiling(k, digits, x);
        nonzero += counting::sign(x);
    }
    let joins = counting::lessened(nonzero, 1);
    Quote {
        count: count + joins,
        ceiling: ceiling + joins,
    }
}

// The squarings, and the steps of the payslips or their parts of the ceiling.
fn chain_quote(p: usize, q: usize, amounts: &[u32], k: usize, columns: &[u32]) -> Quote
    requires { YaoAsked p q amounts.now k columns.now }
    ensures { QuoteOf result (yao_method p q amounts.now k) }
{
    let squarings = squaring_count(p, k, columns);
    let mut count = squarings;
    let mut ceiling = squarings;
    for i in 0..q {
        let payslip = payslip_quote(p, q, amounts, k, columns, i);
        count += payslip.count;
        ceiling += payslip.ceiling;
    }
    Quote { count, ceiling }
}

// The number of steps of the chain, and its ceiling.
pub fn quote(p: usize, q: usize, amounts: &[u32], k: usize, largest: &[u32]) -> Quote
    requires { AskedByLargest yao_most p q amounts.now k largest.now }
    ensures { QuoteOf result (yao_method p q amounts.now k) }
{
    let mut columns = [0u32; chain::MOST_COLUMNS];
    measuring::measure_digits(p, k, largest, &mut columns);
    chain_quote(p, q, amounts, k, &columns)
}
