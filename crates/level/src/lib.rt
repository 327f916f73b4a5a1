// The cut of one level: rows of indices cut into clumps and overflow, equal clumps made one, and all of them put in order.
#![tactic(auto)]

ghost use Rattle.std.specs.Prelude.{◌≡◌, ◌*◌, ◌^◌, ◌≤◌, ◌<◌};
ghost use Rattle.clumps.specs.Clumps.{most_part};
ghost use Rattle.groups.specs.Groups.{group_count};
ghost use Rattle.level.specs.Inner.{LevelAsked, LevelCut};

use cuts::Pair;

// The rows of the clumps, how many they are, and where they end.
#[derive(Clone, Copy)]
pub struct Clumped {
    pub clumps: usize,
    pub k: usize,
    pub end: usize,
}

// How many keys clumps of n indices in parts of a may have.
fn key_count(n: usize, a: usize) -> usize
    requires { (1 ≤ a) × (a ≤ most_part) × (n < 2 ^ 24) }
    ensures { result ≡ group_count a n * 2 ^ a }
{
    (n + a - 1) / a * digits::power(a) as usize
}

// m rows of indices below n cut: the places of each row's clumps in rows at `keys`, what overflows in rows at `rest`, and the clumps behind them.
pub fn cut_level(
    s: &mut [u32],
    at: usize,
    m: usize,
    n: usize,
    l: Pair,
    keys: usize,
    rest: usize,
) -> Clumped
    requires { LevelAsked s.old at m n l keys rest }
    ensures { LevelCut at m n l keys rest result s.old s.new }
{
    let a = l.a as usize;
    let ends = cuts::cut_rows(s, at, m, l, keys, rest);
    let table = ends.rest;
    let size = key_count(n, a);
    let first = table + size;
    let clumps = ranks::rank(s, keys + m + 1, ends.keys, table, size);
    let k = clumps - first;
    let end = keys::lay_clumps(s, first, k, a, clumps);
    Clumped { clumps, k, end }
}
