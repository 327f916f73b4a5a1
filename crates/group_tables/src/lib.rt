// The squarings, the inputs that they make, and the groups' tables.
#![tactic(auto)]

ghost use Rattle.std.specs.Prelude.{◌≡◌, ◌+◌, ◌^◌, ◌≤◌, ◌<◌, length};
ghost use Rattle.chain.specs.Chain.{most_columns};
ghost use Rattle.chain.specs.Written.{over, laid};
ghost use Rattle.products.specs.Inner.{steps_in, WithRoom, begun, StepsRoom, StepsStored};
ghost use Rattle.methods.specs.Powers.{power_at};
ghost use Rattle.digits.specs.Range.{list_to};
ghost use Rattle.groups.specs.Inner.{GroupsMade, GroupsRoom, InputsRoom, TablesRoom, bit_inputs, bit_squarings};
ghost use Rattle.groups.specs.Inner.{bits_less, tables_after};

use groups::Grouping;
use products::Progress;

// The numbers of the first n powers of a column, whose squarings are made after value first, from a cell on.
#[tactic(auto, using(groups::proofs::Numbering::fill_start, groups::proofs::Numbering::filled_on, groups::proofs::Numbering::filled_end))]
fn number_column(col: usize, first: usize, n: usize, at: usize, cells: &mut [u32])
    requires { (col < most_columns) × (first + n < 2 ^ 32) × (at + n ≤ length cells.old) }
    ensures { cells.new ≡ laid at (list_to n (power_at col first)) cells.old }
{
    for j in 0..n {
        cells[at + j] = methods::power_at(col, first, j);
    }
}

// The inputs' value numbers, for columns of these bits.
fn number_inputs(bits: &[u32], cells: &mut [u32])
    requires { InputsRoom bits.now cells.old }
    ensures { cells.new ≡ over (bit_inputs bits.now (length bits.now)) cells.old }
{
    let mut at: usize = 0;
    let mut first = bits.len();
    for (col, b) in bits.iter().enumerate() {
        let n = *b as usize;
        number_column(col, first, n, at, cells);
        at += n;
        first += counting::lessened(n, 1);
    }
}

// How often each column is squared: once less than it has bits.
fn count_squarings(bits: &[u32], cells: &mut [u32])
    requires { length bits.now ≤ length cells.old }
    ensures { cells.new ≡ over (list_to (length bits.now) (bits_less bits.now 1)) cells.old }
{
    for (col, b) in bits.iter().enumerate() {
        cells[col] = counting::lessened(*b as usize, 1) as u32;
    }
}

// The squarings of columns of these bits, from the first step on.
fn make_squarings(bits: &[u32], steps: &mut [u32]) -> Progress
    requires { WithRoom (length bits.now ≤ most_columns) (StepsRoom (length bits.now) steps.old begun (bit_squarings bits.now)) }
    ensures { StepsStored steps.old steps.new result (bit_squarings bits.now) }
{
    let p = bits.len();
    let mut counts = [0u32; chain::MOST_COLUMNS];
    count_squarings(bits, &mut counts);
    methods::square_columns(p, &counts[..p], steps)
}

// The tables of the groups of these inputs.
fn make_tables(s: Grouping, members: &[u32], mut progress: Progress, steps: &mut [u32]) -> Progress
    requires { TablesRoom s members.now steps.old progress }
    ensures { StepsStored steps.old steps.new result
        (tables_after s members.now (steps_in steps.old progress.steps)) }
{
    for g in 0..s.groups {
        let from = g * s.c;
        let to = from + subsets::group_size(s.c, s.inputs, g);
        progress = tables::make_table(s.p, 1, &members[from..to], progress, steps);
    }
    progress
}

// The squarings and the tables of the groups, for columns of these bits; the inputs' value numbers go into members.
pub fn make_groups(s: Grouping, bits: &[u32], members: &mut [u32], steps: &mut [u32]) -> Progress
    requires { GroupsRoom s bits.now members.old steps.old }
    ensures { GroupsMade s bits.now members.old steps.old members.new steps.new result }
{
    number_inputs(bits, members);
    let first = make_squarings(bits, steps);
    make_tables(s, &members[..s.inputs], first, steps)
}
