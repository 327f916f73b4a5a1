// Method 3, partition: the number of steps and its ceiling, without making the steps.
#![tactic(auto)]

ghost use Rattle.std.specs.Prelude.{◌-◌, ◌*◌, ◌≤◌, length};
ghost use Rattle.digits.specs.Range.{sum_to, sign};
ghost use Rattle.methods.specs.Powers.{counts_of};
ghost use Rattle.methods.specs.Inner.{AskedByLargest, QuoteOf};
ghost use Rattle.groups.specs.Groups.{most_inputs, most_members};
ghost use Rattle.digits.specs.Inner.{Bounded};
ghost use Rattle.groups.specs.Inner.{Grouped, PartsRoom};
ghost use Rattle.partition.specs.Partition.{join_count};
ghost use Rattle.partition.specs.Method.{partition_method};
ghost use Rattle.partition_count.specs.Inner.{TallyRoom};

use answers::Quote;
use groups::Grouping;

// The steps of a payslip with these parts: those that are not empty less 1.
fn joins(numbers: &[u32]) -> usize
    requires { length numbers.now ≤ most_inputs }
    ensures { Bounded result (sum_to (length numbers.now) (λ g. sign (counts_of numbers.now g)) - 1) most_inputs }
{
    let mut n: usize = 0;
    for x in numbers {
        n += counting::sign(*x);
    }
    n.saturating_sub(1)
}

// The steps of payslip i; the cells are for the numbers of its parts.
fn payslip_count(s: Grouping, amounts: &[u32], bits: &[u32], i: usize, cells: &mut [u32]) -> usize
    requires { PartsRoom s amounts.now bits.now i cells.old }
    ensures { Bounded result (join_count s.p s.q amounts.now s.c s.groups i) most_inputs }
{
    cutting::number_parts(s, amounts, bits, i, cells);
    joins(&cells[..s.groups])
}

// The steps of the payslips.
fn payslips_count(s: Grouping, amounts: &[u32], bits: &[u32], cells: &mut [u32]) -> usize
    requires { TallyRoom s amounts.now bits.now cells.old }
    ensures { Bounded result (sum_to s.q (join_count s.p s.q amounts.now s.c s.groups)) (most_inputs * s.q) }
{
    let mut n: usize = 0;
    for i in 0..s.q {
        n += payslip_count(s, amounts, bits, i, cells);
    }
    n
}

// The squarings and the groups' tables; then for the count the payslips' steps, and for the ceiling one for each payslip and each group but one.
fn chain_quote(s: Grouping, amounts: &[u32], bits: &[u32]) -> Quote
    requires { Grouped s amounts.now bits.now }
    ensures { QuoteOf result (partition_method s.p s.q amounts.now s.c) }
{
    let before = s.squarings + subsets::tables_count(s);
    let mut cells = [0u32; groups::MOST_INPUTS];
    let count = before + payslips_count(s, amounts, bits, &mut cells);
    let ceiling = before + s.q * counting::lessened(s.groups, 1);
    Quote { count, ceiling }
}

// The number of steps of the chain, and its ceiling.
pub fn quote(p: usize, q: usize, amounts: &[u32], c: usize, largest: &[u32]) -> Quote
    requires { AskedByLargest most_members p q amounts.now c largest.now }
    ensures { QuoteOf result (partition_method p q amounts.now c) }
{
    let mut bits = [0u32; chain::MOST_COLUMNS];
    let s = groups::group_columns(p, q, c, largest, &mut bits);
    chain_quote(s, amounts, &bits[..p])
}
