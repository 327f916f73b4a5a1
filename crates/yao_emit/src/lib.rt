// Method 2, Yao: the chain's steps and outputs.
#![tactic(auto)]

ghost use Rattle.std.specs.Prelude.{◌≡◌, ◌-◌, ◌^◌, ◌≤◌, length};
ghost use Rattle.chain.specs.Written.{over};
ghost use Rattle.digits.specs.Range.{list_to};
ghost use Rattle.products.specs.Product.{payslips};
ghost use Rattle.products.specs.Inner.{steps_in, product_in, WithRoom, StepsRoom, Emitted};
ghost use Rattle.methods.specs.Inner.{AskedByLargest, ChainRoom, ChainStored, PayslipsRoom};
ghost use Rattle.yao.specs.Yao.{gather_one, yao_payslip, yao, yao_count, yao_most};
ghost use Rattle.yao.specs.Inner.{DigitsFew, YaoAsked, YaoPayslipAsked, squarings_in};
ghost use Rattle.yao_emit.specs.Inner.{Reach, gather_in, sweep_in, joined, SweepEmitted, SquaringsCounted, yao_slip};

use products::{PartialProduct, Progress};

// A column of a payslip: the sheet's columns p and the parameter k, its place c, the value after which its powers are made, how many they are, and its
// amount x.
#[derive(Clone, Copy)]
pub struct Column {
    pub p: usize,
    pub k: usize,
    pub c: usize,
    pub first: usize,
    pub digits: usize,
    pub x: u32,
}

// The two products of a column, and the steps so far.
#[derive(Clone, Copy)]
pub struct Pair {
    pub progress: Progress,
    pub a: u32,
    pub b: u32,
}

// b times the power, where the digit is d.
fn gather_one(
    p: usize,
    digit: u32,
    d: u32,
    b: PartialProduct,
    power: u32,
    steps: &mut [u32],
) -> PartialProduct
    requires { StepsRoom p steps.old b.progress (gather_one p digit d (product_in steps.old b) power).steps }
    ensures { Emitted steps.old steps.new result.progress result.value
        (gather_one p digit d (product_in steps.old b) power) }
{
    if digit == d {
        products::times(p, b, power, steps)
    } else {
        // by its fields and not as a whole, which was slower where it was measured (docs/NOTES.md, Speed)
        PartialProduct {
            progress: b.progress,
            value: b.value,
        }
    }
}

// b times each power whose digit is d, lowest first.
fn gather_powers(column: Column, d: u32, b: PartialProduct, steps: &mut [u32]) -> PartialProduct
    requires { WithRoom (Reach column) (StepsRoom column.p steps.old b.progress (gather_in column d column.digits (product_in steps.old b)).steps) }
    ensures { Emitted steps.old steps.new result.progress result.value
        (gather_in column d column.digits (product_in steps.old b)) }
{
    let mut r = b;
    for i in 0..column.digits {
        let power = methods::power_at(column.c, column.first, column.k * i);
        let digit = digits::digit(column.k, column.x, i);
        r = gather_one(column.p, digit, d, r, power, steps);
    }
    r
}

// The products of a column: for each digit from the largest down, b takes up its powers, then a takes up b.
fn sweep_column(column: Column, progress: Progress, steps: &mut [u32]) -> Pair
    requires { WithRoom (Reach column)
        (StepsRoom column.p steps.old progress (sweep_in column (steps_in steps.old progress.steps) (2 ^ column.k - 1)).steps) }
    ensures { SweepEmitted steps.old steps.new result.progress result.a result.b
        (sweep_in column (steps_in steps.old progress.steps) (2 ^ column.k - 1)) }
{
    let mut s = Pair {
        progress,
        a: 0,
        b: 0,
    };
    for d in (1..digits::power(column.k)).rev() {
        let b = gather_powers(
            column,
            d,
            PartialProduct {
                progress: s.progress,
                value: s.b,
            },
            steps,
        );
        let a = products::times(
            column.p,
            PartialProduct {
                progress: b.progress,
                value: s.a,
            },
            b.value,
            steps,
        );
        s = Pair {
            progress: a.progress,
            a: a.value,
            b: b.value,
        };
    }
    s
}

// How often each of the p columns measured is squared.
fn all_squarings(p: usize, k: usize, columns: &[u32], counts: &mut [u32])
    requires { WithRoom (DigitsFew k p columns.now) (p ≤ length counts.old) }
    ensures { counts.new ≡ over (list_to p (squarings_in k columns.now)) counts.old }
{
    for (c, count) in counts[..p].iter_mut().enumerate() {
        *count = yao::squarings_of(k, columns[c] as usize) as u32;
    }
}

// The product times the power x of a column's base.
fn join_column(column: Column, m: PartialProduct, steps: &mut [u32]) -> PartialProduct
    requires { WithRoom (Reach column) (StepsRoom column.p steps.old m.progress (joined column (product_in steps.old m)).steps) }
    ensures { Emitted steps.old steps.new result.progress result.value
        (joined column (product_in steps.old m)) }
{
    let s = sweep_column(column, m.progress, steps);
    products::times(
        column.p,
        PartialProduct {
            progress: s.progress,
            value: m.value,
        },
        s.a,
        steps,
    )
}

// Payslip i, column by column.
fn make_payslip(
    p: usize,
    q: usize,
    amounts: &[u32],
    k: usize,
    columns: &[u32],
    i: usize,
    progress: Progress,
    steps: &mut [u32],
) -> PartialProduct
    requires { WithRoom (YaoPayslipAsked p q amounts.now k columns.now i)
        (StepsRoom p steps.old progress (yao_payslip p q amounts.now k i (steps_in steps.old progress.steps) p).steps) }
    ensures { Emitted steps.old steps.new result.progress result.value
        (yao_payslip p q amounts.now k i (steps_in steps.old progress.steps) p) }
{
    let mut r = PartialProduct { progress, value: 0 };
    let mut first = p;
    for (c, digits) in columns[..p].iter().enumerate() {
        let digits = *digits as usize;
        let column = Column {
            p,
            k,
            c,
            first,
            digits,
            x: sheet::amount(p, amounts, i, c),
        };
        r = join_column(column, r, steps);
        first += yao::squarings_of(k, digits);
    }
    r
}

// The payslips in order: their steps, and their products as outputs.
fn make_payslips(
    p: usize,
    q: usize,
    amounts: &[u32],
    k: usize,
    columns: &[u32],
    progress: Progress,
    steps: &mut [u32],
    outputs: &mut [u32],
) -> Progress
    requires { WithRoom (YaoAsked p q amounts.now k columns.now) (PayslipsRoom p q steps.old progress
        (payslips (yao_slip p q amounts.now k) (steps_in steps.old progress.steps) q).steps outputs.old) }
    ensures { ChainStored steps.old outputs.old steps.new outputs.new result
        (payslips (yao_slip p q amounts.now k) (steps_in steps.old progress.steps) q) }
{
    let mut s = progress;
    for (i, output) in outputs[..q].iter_mut().enumerate() {
        let r = make_payslip(p, q, amounts, k, columns, i, s, steps);
        s = r.progress;
        *output = r.value;
    }
    s
}

// The squarings of the columns' bases, then the payslips.
fn make_chain(
    p: usize,
    q: usize,
    amounts: &[u32],
    k: usize,
    columns: &[u32],
    counts: &[u32],
    steps: &mut [u32],
    outputs: &mut [u32],
) -> Progress
    requires { WithRoom (SquaringsCounted p q amounts.now k columns.now counts.now) (ChainRoom q (yao_count p q amounts.now k) steps.old outputs.old) }
    ensures { ChainStored steps.old outputs.old steps.new outputs.new result
        (yao p q amounts.now k) }
{
    let squared = methods::square_columns(p, counts, steps);
    make_payslips(p, q, amounts, k, columns, squared, steps, outputs)
}

// The chain: its steps, first and second in turn, and its outputs.
pub fn emit(
    p: usize,
    q: usize,
    amounts: &[u32],
    k: usize,
    largest: &[u32],
    steps: &mut [u32],
    outputs: &mut [u32],
) -> Progress
    requires { WithRoom (AskedByLargest yao_most p q amounts.now k largest.now) (ChainRoom q (yao_count p q amounts.now k) steps.old outputs.old) }
    ensures { ChainStored steps.old outputs.old steps.new outputs.new result
        (yao p q amounts.now k) }
{
    let mut columns = [0u32; chain::MOST_COLUMNS];
    measuring::measure_digits(p, k, largest, &mut columns);
    let mut counts = [0u32; chain::MOST_COLUMNS];
    all_squarings(p, k, &columns, &mut counts);
    make_chain(p, q, amounts, k, &columns, &counts[..p], steps, outputs)
}
