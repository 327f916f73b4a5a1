// The largest amount of each column, and its digits.
#![tactic(auto)]

ghost use Rattle.std.specs.Prelude.{◌≡◌, ◌*◌, ◌≤◌, ◌<◌, length};
ghost use Rattle.chain.specs.Written.{over};
ghost use Rattle.digits.specs.Range.{list_to};
ghost use Rattle.methods.specs.Powers.{largest_in};
ghost use Rattle.methods.specs.Inner.{Largest, digits_at};

// The largest amount of column c over all payslips.
#[tactic(auto, using(digits::proofs::Range::max_on, sheet::proofs::Amounts::amount_there))]
fn largest_in(p: usize, q: usize, amounts: &[u32], c: usize) -> u32
    requires { (c < p) × (length amounts.now ≡ p * q) }
    ensures { result ≡ largest_in p q amounts.now c }
{
    let mut most: u32 = 0;
    for i in 0..q {
        most = counting::larger(most, sheet::amount(p, amounts, i, c));
    }
    most
}

// The largest amount of each column into its cell: the one pass over the amounts before a method counts and emits.
pub fn measure_columns(p: usize, q: usize, amounts: &[u32], cells: &mut [u32])
    requires { (p ≤ length cells.old) × (length amounts.now ≡ p * q) }
    ensures { Largest p q amounts.now cells.new }
{
    for (c, cell) in cells[..p].iter_mut().enumerate() {
        *cell = largest_in(p, q, amounts, c);
    }
}

// How many digits in base 2^k each of the first p numbers has, into its cell.
#[tactic(auto, using(crate::proofs::Columns::digits_low))]
pub fn measure_digits(p: usize, k: usize, numbers: &[u32], cells: &mut [u32])
    requires { (0 < k) × (k < 32) × (p ≤ length numbers.now) × (p ≤ length cells.old) }
    ensures { cells.new ≡ over (list_to p (digits_at k numbers.now)) cells.old }
{
    for (c, cell) in cells[..p].iter_mut().enumerate() {
        *cell = digits::digit_count(k, numbers[c]) as u32;
    }
}
