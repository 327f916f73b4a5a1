// Tables of products of some inputs, made in rising number.
#![tactic(auto)]

ghost use Rattle.std.specs.Prelude.{◌≡◌, ◌++◌, ◌+◌, ◌-◌, ◌*◌, ◌^◌, ◌<◌, length};
ghost use Rattle.products.specs.Inner.{steps_in, WithRoom, MoreRoom, StepsRoom, StepsStored};
ghost use Rattle.tables.specs.Table.{entry, lowest, table_next, table};
ghost use Rattle.tables.specs.Inner.{EntryAsked, CountedAsked, OtherAsked, LowestAsked, RowAsked, TableAsked, OneMore, Longer};

use products::Progress;

// The value number of entry t, which is not zero and whose d digits are counted, of a table whose first step makes value at: an input for the unit
// with as many digits, else a step.
#[tactic(auto, using(crate::proofs::Tabling::entering))]
fn counted_entry(k: usize, inputs: &[u32], at: u32, d: usize, t: u32) -> u32
    requires { CountedAsked k inputs.now at d t }
    ensures { result ≡ entry k inputs.now at t }
{
    // both are at hand before they are told apart, since the processor foresees badly which it is
    let unit = inputs[d - 1];
    let made = (at as usize + t as usize - d - 1) as u32;
    if t == digits::power(k * (d - 1)) {
        unit
    } else {
        made
    }
}

// The value number of entry t of a table whose first step makes value at.
#[tactic(auto, using(crate::proofs::Tabling::entering))]
pub fn entry(k: usize, inputs: &[u32], at: u32, t: u32) -> u32
    requires { EntryAsked k inputs.now at t }
    ensures { result ≡ entry k inputs.now at t }
{
    if t == 0 {
        0
    } else {
        counted_entry(k, inputs, at, digits::digit_count(k, t), t)
    }
}

// The place of the lowest digit of t that is not 0, from the zeros below it. Digits of one bit are not cut, which spares a division.
#[tactic(auto, using(crate::proofs::Trailing::trailing_bit, crate::proofs::Trailing::trailing_lowest))]
fn lowest(k: usize, t: u32) -> usize
    requires { LowestAsked k t }
    ensures { result ≡ lowest k t }
{
    let zeros = t.trailing_zeros() as usize;
    if k == 1 { zeros } else { zeros / k }
}

// The step of entry t, which has d digits and is no unit. Its rest has as many digits.
#[tactic(auto, using(crate::proofs::Tabling::extending))]
fn put_entry(
    k: usize,
    inputs: &[u32],
    at: u32,
    d: usize,
    t: u32,
    progress: Progress,
    steps: &mut [u32],
) -> Progress
    requires { WithRoom (OtherAsked k inputs.now at d t) (MoreRoom steps.old progress 1) }
    ensures { OneMore steps.old steps.new progress result
        (table_next k inputs.now at t (steps_in steps.old progress.steps)) }
{
    let l = lowest(k, t);
    let rest = counted_entry(k, inputs, at, d, t - digits::power(k * l));
    products::put(progress, rest, inputs[l], steps)
}

// The steps of the entries with one digit more than d. The first of these entries is a unit and costs none.
fn make_row(
    k: usize,
    inputs: &[u32],
    at: u32,
    d: usize,
    progress: Progress,
    steps: &mut [u32],
) -> Progress
    requires { WithRoom (RowAsked k inputs.now at d) (MoreRoom steps.old progress (2 ^ (k * (d + 1)) - 2 ^ (k * d) - 1)) }
    ensures { Longer k inputs.now at steps.old progress (2 ^ (k * d) + 1) steps.new result (2 ^ (k * (d + 1))) }
{
    let end = digits::power(k * (d + 1));
    let mut s = progress;
    for t in digits::power(k * d) + 1..end {
        s = put_entry(k, inputs, at, d + 1, t, s, steps);
    }
    s
}

// The table of all products of the inputs with exponents below 2^k.
pub fn make_table(
    p: usize,
    k: usize,
    inputs: &[u32],
    progress: Progress,
    steps: &mut [u32],
) -> Progress
    requires { WithRoom (TableAsked p k inputs.now progress.steps) (StepsRoom p steps.old progress
        (steps_in steps.old progress.steps ++ table k inputs.now (p + progress.steps + 1) (2 ^ (k * length inputs.now)))) }
    ensures { StepsStored steps.old steps.new result (steps_in steps.old progress.steps
        ++ table k inputs.now (p + progress.steps + 1) (2 ^ (k * length inputs.now))) }
{
    let at = (p + progress.steps + 1) as u32;
    let mut s = progress;
    for d in 0..inputs.len() {
        s = make_row(k, inputs, at, d, s, steps);
    }
    s
}
