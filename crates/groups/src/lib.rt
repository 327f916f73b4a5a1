// Method 3 up to its groups' tables: the columns' bits, the inputs and their groups.
#![tactic(auto)]

ghost use Rattle.std.specs.Prelude.{◌≤◌, length, take};
ghost use Rattle.digits.specs.Range.{sum_to};
ghost use Rattle.groups.specs.Groups.{group_count, most_inputs, most_members};
ghost use Rattle.digits.specs.Inner.{Bounded};
ghost use Rattle.groups.specs.Inner.{GroupedBy, GroupingAsked, Narrow, bits_less};

// No sheet has more inputs: an amount has at most 32 bits.
pub const MOST_INPUTS: usize = chain::MOST_COLUMNS * 32;

// A sheet's inputs in groups of c: p columns, q payslips, and how many inputs, groups and squarings there are.
#[derive(Clone, Copy)]
pub struct Grouping {
    pub p: usize,
    pub q: usize,
    pub c: usize,
    pub inputs: usize,
    pub groups: usize,
    pub squarings: usize,
}

// The columns' bits less some each, added up.
fn column_sum(bits: &[u32], less: usize) -> usize
    requires { Narrow bits.now }
    ensures { Bounded result (sum_to (length bits.now) (bits_less bits.now less)) most_inputs }
{
    let mut s: usize = 0;
    for b in bits {
        s += counting::lessened(*b as usize, less);
    }
    s
}

// How many groups w inputs make.
fn group_count(c: usize, w: usize) -> usize
    requires { (1 ≤ c) × (c ≤ most_members) × (w ≤ most_inputs) }
    ensures { Bounded result (group_count c w) most_inputs }
{
    (w + c - 1) / c
}

// The columns' bits into cells, by their largest amounts, and the inputs in groups.
pub fn group_columns(p: usize, q: usize, c: usize, largest: &[u32], cells: &mut [u32]) -> Grouping
    requires { GroupingAsked p c largest.now cells.old }
    ensures { GroupedBy p q c largest.now (take p cells.new) result }
{
    measuring::measure_digits(p, 1, largest, cells);
    let inputs = column_sum(&cells[..p], 0);
    let groups = group_count(c, inputs);
    let squarings = column_sum(&cells[..p], 1);
    Grouping {
        p,
        q,
        c,
        inputs,
        groups,
        squarings,
    }
}
