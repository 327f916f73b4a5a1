// A payslip's bits in a row, column after column, cut into the parts of the groups.
#![tactic(auto)]

ghost use Rattle.std.specs.Prelude.{◌≡◌, ◌+◌, ◌%◌, ◌^◌, ◌≤◌, ◌<◌, length};
ghost use Rattle.chain.specs.Written.{over};
ghost use Rattle.groups.specs.Groups.{most_members};
ghost use Rattle.groups.specs.Inner.{PartsRoom, part_numbers};
ghost use Rattle.cutting.specs.Inner.{CutUp, Entered};

use groups::Grouping;

// A payslip's bits in a row that are not yet cut into parts: their number, how many they are, and the group of the next part.
#[derive(Clone, Copy)]
pub struct Row {
    pub bits: u64,
    pub held: usize,
    pub g: usize,
}

// The number of the first c bits of a row.
fn front(c: usize, bits: u64) -> u32
    requires { c ≤ most_members }
    ensures { result ≡ bits % 2 ^ c }
{
    (bits % (1u64 << c)) as u32
}

// The parts of c bits cut off a row as long as it has so many, each into the cell of its group.
fn cut_parts(c: usize, mut row: Row, cells: &mut [u32]) -> Row
    requires { (1 ≤ c) × (c ≤ most_members) × (row.g + row.held ≤ length cells.old) }
    ensures { CutUp c row result cells.old cells.new }
{
    // Each turn takes c off what is held, so a while says plainer than a range when it ends.
    while c <= row.held {
        cells[row.g] = front(c, row.bits);
        row.bits >>= c;
        row.held -= c;
        row.g += 1;
    }
    row
}

// The columns of payslip i one after the other in a row, and its whole parts cut off.
fn enter_columns(s: Grouping, amounts: &[u32], bits: &[u32], i: usize, cells: &mut [u32]) -> Row
    requires { PartsRoom s amounts.now bits.now i cells.old }
    ensures { Entered s amounts.now i s.p result cells.old cells.new }
{
    let mut r = Row {
        bits: 0,
        held: 0,
        g: 0,
    };
    for (col, b) in bits.iter().enumerate() {
        r.bits += digits::raised(sheet::amount(s.p, amounts, i, col), r.held);
        r.held += *b as usize;
        r = cut_parts(s.c, r, cells);
    }
    r
}

// The numbers of payslip i's parts, group by group.
pub fn number_parts(s: Grouping, amounts: &[u32], bits: &[u32], i: usize, cells: &mut [u32])
    requires { PartsRoom s amounts.now bits.now i cells.old }
    ensures { cells.new ≡ over (part_numbers s amounts.now i) cells.old }
{
    let r = enter_columns(s, amounts, bits, i, cells);
    if r.held != 0 {
        cells[r.g] = r.bits as u32;
    }
}
