// Method 3, partition: the chain's squarings and tables, then its payslips.
#![tactic(auto)]

ghost use Rattle.products.specs.Inner.{steps_in, WithRoom, StepsRoom, Emitted};
ghost use Rattle.methods.specs.Inner.{AskedByLargest, ChainRoom, ChainStored, PayslipsRoom};
ghost use Rattle.methods.specs.Powers.{counts_of};
ghost use Rattle.groups.specs.Groups.{most_members};
ghost use Rattle.partition.specs.Partition.{partition, partition_count};
ghost use Rattle.partition_emit.specs.Inner.{Numbered, Ready, PayslipRoom, SheetRoom, parts_by, payslip_of, payslips_of};

use groups::Grouping;
use products::{PartialProduct, Progress};

// The parts of a payslip with these numbers, multiplied in order.
fn make_parts(
    s: Grouping,
    members: &[u32],
    numbers: &[u32],
    progress: Progress,
    steps: &mut [u32],
) -> PartialProduct
    requires { WithRoom (Numbered s members.now numbers.now) (StepsRoom s.p steps.old progress
        (parts_by s members.now (counts_of numbers.now) (steps_in steps.old progress.steps) s.groups).steps) }
    ensures { Emitted steps.old steps.new result.progress result.value
        (parts_by s members.now (counts_of numbers.now) (steps_in steps.old progress.steps) s.groups) }
{
    let mut r = PartialProduct { progress, value: 0 };
    for (g, t) in numbers.iter().enumerate() {
        let y = subsets::part_value(s, members, g, *t);
        r = products::times(s.p, r, y, steps);
    }
    r
}

// Payslip i; the cells are for the numbers of its parts.
fn make_payslip(
    s: Grouping,
    amounts: &[u32],
    bits: &[u32],
    members: &[u32],
    i: usize,
    progress: Progress,
    cells: &mut [u32],
    steps: &mut [u32],
) -> PartialProduct
    requires { PayslipRoom s amounts.now bits.now members.now cells.old steps.old i progress }
    ensures { Emitted steps.old steps.new result.progress result.value
        (payslip_of s amounts.now i (steps_in steps.old progress.steps)) }
{
    cutting::number_parts(s, amounts, bits, i, cells);
    make_parts(s, members, &cells[..s.groups], progress, steps)
}

// The payslips in order: their steps, and their products as outputs.
fn make_payslips(
    s: Grouping,
    amounts: &[u32],
    bits: &[u32],
    members: &[u32],
    mut progress: Progress,
    cells: &mut [u32],
    steps: &mut [u32],
    outputs: &mut [u32],
) -> Progress
    requires { WithRoom (Ready s amounts.now bits.now members.now cells.old) (PayslipsRoom s.p s.q steps.old progress
        (payslips_of s amounts.now (steps_in steps.old progress.steps)).steps outputs.old) }
    ensures { ChainStored steps.old outputs.old steps.new outputs.new result
        (payslips_of s amounts.now (steps_in steps.old progress.steps)) }
{
    for i in 0..s.q {
        let r = make_payslip(s, amounts, bits, members, i, progress, cells, steps);
        progress = r.progress;
        outputs[i] = r.value;
    }
    progress
}

// The squarings, the tables of the groups, then the payslips; some cells are for the inputs, others for the numbers of a payslip's parts.
fn make_chain(
    s: Grouping,
    amounts: &[u32],
    bits: &[u32],
    members: &mut [u32],
    cells: &mut [u32],
    steps: &mut [u32],
    outputs: &mut [u32],
) -> Progress
    requires { SheetRoom s amounts.now bits.now members.old cells.old steps.old outputs.old }
    ensures { ChainStored steps.old outputs.old steps.new outputs.new result
        (partition s.p s.q amounts.now s.c) }
{
    let tables = group_tables::make_groups(s, bits, members, steps);
    make_payslips(
        s,
        amounts,
        bits,
        &members[..s.inputs],
        tables,
        cells,
        steps,
        outputs,
    )
}

// The chain: its steps, first and second in turn, and its outputs.
pub fn emit(
    p: usize,
    q: usize,
    amounts: &[u32],
    c: usize,
    largest: &[u32],
    steps: &mut [u32],
    outputs: &mut [u32],
) -> Progress
    requires { WithRoom (AskedByLargest most_members p q amounts.now c largest.now)
        (ChainRoom q (partition_count p q amounts.now c) steps.old outputs.old) }
    ensures { ChainStored steps.old outputs.old steps.new outputs.new result
        (partition p q amounts.now c) }
{
    let mut bits = [0u32; chain::MOST_COLUMNS];
    let s = groups::group_columns(p, q, c, largest, &mut bits);
    let mut members = [0u32; groups::MOST_INPUTS];
    let mut cells = [0u32; groups::MOST_INPUTS];
    make_chain(
        s,
        amounts,
        &bits[..p],
        &mut members,
        &mut cells,
        steps,
        outputs,
    )
}
