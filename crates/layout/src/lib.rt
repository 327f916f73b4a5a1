// The layout of a chain's file, as a value, and what a chain's sizes come to in it.
#![tactic(auto)]

ghost use Rattle.std.specs.Prelude.{◌≡◌};
ghost use Rattle.layout.specs.Layout.{edition1};
ghost use Rattle.layout.specs.Inner.{LayoutHolds, extent_of};

// An edition: its number, how many bits n has in its header, and the most steps that it holds.
#[derive(Clone, Copy)]
pub struct Layout {
    pub edition: usize,
    pub bits: usize,
    pub limit: usize,
}

// The most steps that a file of edition 1 holds.
pub const EDITION_1_STEPS: usize = 16000;

// How many values the longest chain in a file of edition 1 has.
pub const EDITION_1_VALUES: usize = chain::MOST_COLUMNS + EDITION_1_STEPS + 1;

// The bits of n in a header of edition 1, and those of the header before n.
const EDITION_1_BITS: usize = 14;

const SIZES_BITS: usize = 14;

// The width of a field in the longest file.
const WIDEST: usize = 14;

// The longest file of edition 1, in bytes.
pub const LONGEST_FILE: usize = (SIZES_BITS
    + EDITION_1_BITS
    + (2 * EDITION_1_STEPS + chain::MOST_PAYSLIPS) * WIDEST
    + 7)
    / 8;

pub fn first_edition() -> Layout
    ensures { result ≡ edition1 }
{
    Layout {
        edition: 1,
        bits: EDITION_1_BITS,
        limit: EDITION_1_STEPS,
    }
}

// A chain's sizes in a file: the width of its fields, where its steps begin, its bits before the filling, and its bytes with it.
#[derive(Clone, Copy)]
pub struct Extent {
    pub p: usize,
    pub q: usize,
    pub n: usize,
    pub width: usize,
    pub start: usize,
    pub total: usize,
    pub bytes: usize,
}

pub fn extent_of(layout: Layout, p: usize, q: usize, n: usize) -> Extent
    requires { LayoutHolds layout p q n }
    ensures { result ≡ extent_of layout p q n }
{
    let width = width::by_cases(p + n);
    let start = SIZES_BITS + layout.bits;
    let total = start + (2 * n + q) * width;
    Extent {
        p: p,
        q: q,
        n: n,
        width: width,
        start: start,
        total: total,
        bytes: (total + 7) / 8,
    }
}
