// Method 1, Straus: the chain's table, then its payslips.
#![tactic(auto)]

ghost use Rattle.std.specs.Prelude.{◌≡◌, ◌+◌, ◌*◌, ◌^◌, ◌≤◌, ◌<◌, length};
ghost use Rattle.chain.specs.Chain.{most_columns};
ghost use Rattle.chain.specs.Written.{over};
ghost use Rattle.digits.specs.Range.{list_to};
ghost use Rattle.products.specs.Product.{times, squared, payslips};
ghost use Rattle.products.specs.Inner.{steps_in, product_in, WithRoom, StepsRoom, Emitted};
ghost use Rattle.methods.specs.Inner.{ChainRoom, ChainStored, PayslipsRoom};
ghost use Rattle.straus.specs.Straus.{bases, straus_digits, straus_payslip, straus, straus_count};
ghost use Rattle.straus.specs.Inner.{StrausAsked, PayslipAsked};
ghost use Rattle.straus_emit.specs.Inner.{PayslipOver, ChainOver, Counted, raised_at, mask_at, vector_at, digits_made, DigitsAsked};

use products::{PartialProduct, Progress};

// How many digits the largest amount of payslip i has.
fn digit_count(p: usize, amounts: &[u32], k: usize, i: usize) -> usize
    requires { PayslipAsked p amounts.now k i }
    ensures { Counted k result (straus_digits p amounts.now k i) }
{
    digits::digit_count(k, straus::overlaid(p, amounts, i))
}

// The amounts of payslip i, each moved up to where its digits stand in a vector.
fn raise_amounts(p: usize, amounts: &[u32], k: usize, i: usize, cells: &mut [u64])
    requires { WithRoom (PayslipAsked p amounts.now k i) (p ≤ length cells.old) }
    ensures { cells.new ≡ over (list_to p (raised_at p amounts.now k i)) cells.old }
{
    for (c, cell) in cells[..p].iter_mut().enumerate() {
        *cell = digits::raised(sheet::amount(p, amounts, i, c), k * c);
    }
}

// The mask of each column's digit in a vector.
fn fill_masks(p: usize, k: usize, cells: &mut [u64])
    requires { WithRoom (p + k * p < 32) (p ≤ length cells.old) }
    ensures { cells.new ≡ over (list_to p (mask_at k)) cells.old }
{
    for (c, cell) in cells[..p].iter_mut().enumerate() {
        *cell = digits::raised(1, k + k * c) - digits::raised(1, k * c);
    }
}

// The number of the vector that stands s bits up: of each cell what is under its mask.
fn vector(p: usize, cells: &[u64], masks: &[u64], s: usize) -> u32
    requires { (p ≤ length cells.now) × (p ≤ length masks.now) × (s < 32) × (vector_at p cells.now masks.now s < 2 ^ 32) }
    ensures { result ≡ vector_at p cells.now masks.now s }
{
    let mut v: u64 = 0;
    for (c, cell) in cells[..p].iter().enumerate() {
        v += (cell >> s) & masks[c];
    }
    v as u32
}

// One digit more of a product: squared k times, then times value y.
fn take_digit(p: usize, k: usize, m: PartialProduct, y: u32, steps: &mut [u32]) -> PartialProduct
    requires { StepsRoom p steps.old m.progress (times p (squared p k (product_in steps.old m)) y).steps }
    ensures { Emitted steps.old steps.new result.progress result.value (times p (squared p k (product_in steps.old m)) y) }
{
    let s = products::squared(p, k, m, steps);
    products::times(p, s, y, steps)
}

// The product of the digits in the cells, by Horner's rule, the top digit first.
fn take_digits(
    p: usize,
    k: usize,
    inputs: &[u32],
    cells: &[u64],
    masks: &[u64],
    digits: usize,
    progress: Progress,
    steps: &mut [u32],
) -> PartialProduct
    requires { WithRoom (DigitsAsked p k inputs.now cells.now masks.now digits) (StepsRoom p steps.old progress
        (digits_made p k inputs.now cells.now masks.now digits (steps_in steps.old progress.steps) digits).steps) }
    ensures { Emitted steps.old steps.new result.progress result.value
        (digits_made p k inputs.now cells.now masks.now digits (steps_in steps.old progress.steps)
        digits) }
{
    let mut r = PartialProduct { progress, value: 0 };
    for j in (0..digits).rev() {
        let t = vector(p, cells, masks, k * j);
        let e = tables::entry(k, inputs, (p + 1) as u32, t);
        r = take_digit(p, k, r, e, steps);
    }
    r
}

// Payslip i: its amounts are laid out once, and then its digits taken.
fn make_payslip(
    p: usize,
    amounts: &[u32],
    k: usize,
    inputs: &[u32],
    i: usize,
    progress: Progress,
    steps: &mut [u32],
) -> PartialProduct
    requires { WithRoom (PayslipOver p amounts.now k inputs.now i)
        (StepsRoom p steps.old progress (straus_payslip p amounts.now k i (steps_in steps.old progress.steps)).steps) }
    ensures { Emitted steps.old steps.new result.progress result.value
        (straus_payslip p amounts.now k i (steps_in steps.old progress.steps)) }
{
    let mut cells = [0u64; chain::MOST_COLUMNS];
    raise_amounts(p, amounts, k, i, &mut cells);
    let mut masks = [0u64; chain::MOST_COLUMNS];
    fill_masks(p, k, &mut masks);
    let digits = digit_count(p, amounts, k, i);
    take_digits(p, k, inputs, &cells, &masks, digits, progress, steps)
}

// The payslips in order: their steps, and their products as outputs.
fn make_payslips(
    p: usize,
    q: usize,
    amounts: &[u32],
    k: usize,
    inputs: &[u32],
    progress: Progress,
    steps: &mut [u32],
    outputs: &mut [u32],
) -> Progress
    requires { WithRoom (ChainOver p q amounts.now k inputs.now) (PayslipsRoom p q steps.old progress
        (payslips (straus_payslip p amounts.now k) (steps_in steps.old progress.steps) q).steps outputs.old) }
    ensures { ChainStored steps.old outputs.old steps.new outputs.new result
        (payslips (straus_payslip p amounts.now k) (steps_in steps.old progress.steps) q) }
{
    let mut s = progress;
    for (i, output) in outputs[..q].iter_mut().enumerate() {
        let r = make_payslip(p, amounts, k, inputs, i, s, steps);
        s = r.progress;
        *output = r.value;
    }
    s
}

// The table of the bases, then the payslips.
fn make_chain(
    p: usize,
    q: usize,
    amounts: &[u32],
    k: usize,
    inputs: &[u32],
    steps: &mut [u32],
    outputs: &mut [u32],
) -> Progress
    requires { WithRoom (ChainOver p q amounts.now k inputs.now) (ChainRoom q (straus_count p q amounts.now k) steps.old outputs.old) }
    ensures { ChainStored steps.old outputs.old steps.new outputs.new result
        (straus p q amounts.now k) }
{
    let none = Progress {
        steps: 0,
        squarings: 0,
    };
    let table = tables::make_table(p, k, inputs, none, steps);
    make_payslips(p, q, amounts, k, inputs, table, steps, outputs)
}

// The values of the bases.
fn fill_bases(p: usize, cells: &mut [u32])
    requires { WithRoom (p ≤ most_columns) (p ≤ length cells.old) }
    ensures { cells.new ≡ over (bases p) cells.old }
{
    for (c, cell) in cells[..p].iter_mut().enumerate() {
        *cell = (c + 1) as u32;
    }
}

// The chain: its steps, first and second in turn, and its outputs.
pub fn emit(
    p: usize,
    q: usize,
    amounts: &[u32],
    k: usize,
    steps: &mut [u32],
    outputs: &mut [u32],
) -> Progress
    requires { WithRoom (StrausAsked p q amounts.now k) (ChainRoom q (straus_count p q amounts.now k) steps.old outputs.old) }
    ensures { ChainStored steps.old outputs.old steps.new outputs.new result
        (straus p q amounts.now k) }
{
    let mut inputs = [0u32; chain::MOST_COLUMNS];
    fill_bases(p, &mut inputs);
    make_chain(p, q, amounts, k, &inputs[..p], steps, outputs)
}
