// Rows cut into clumps and overflow: in each part the numbers are taken so many at a time, and the rest is left over.
#![tactic(auto)]

ghost use Rattle.std.specs.Prelude.{◌≡◌, ◌+◌, ◌-◌, ◌*◌, ◌^◌, ◌≤◌, ◌<◌, length};
ghost use Rattle.clumps.specs.Clumps.{most_part};
ghost use Rattle.cuts.specs.Inner.{CutAsked, RowsCut};
ghost use Rattle.cuts.specs.Inner.{RunEnds, RunAsked, RunCut, CopyAsked, Copied, PartAsked, PartCut, RowAsked, RowCut, Placed};

// The numbers of a level: how large its parts are, and how many are taken at a time.
#[derive(Clone, Copy)]
pub struct Pair {
    pub a: u32,
    pub b: usize,
}

// Where the rows of keys end, and those of overflow.
#[derive(Clone, Copy)]
pub struct Ends {
    pub keys: usize,
    pub rest: usize,
}

// Where the numbers below `limit` end, of the rising ones in the cells i .. to.
fn run_end(s: &[u32], i: usize, to: usize, limit: u32) -> usize
    requires { (i ≤ to) × (to ≤ length s.now) }
    ensures { RunEnds s.now i to limit result }
{
    for (k, x) in s[i..to].iter().enumerate() {
        if limit <= *x {
            return i + k;
        }
    }
    to
}

// The keys of the clumps of b in the cells from .. to laid from r on: where they end.
fn cut_run(s: &mut [u32], from: usize, to: usize, b: usize, limit: u32, top: u32, r: usize) -> usize
    requires { RunAsked s.old from to b limit top r }
    ensures { RunCut from to b limit top r result s.old s.new }
{
    let mut e = r;
    let mut i = from;
    // It steps by b, so a while says it plainer than a range.
    while i < to {
        s[e] = keys::key(s, i, i + b, limit, top);
        e += 1;
        i += b;
    }
    e
}

// The cells from .. to copied to r on: where the copy ends.
pub fn copy(s: &mut [u32], from: usize, to: usize, r: usize) -> usize
    requires { CopyAsked s.old from to r }
    ensures { Copied from to r result s.old s.new }
{
    s.copy_within(from..to, r);
    r + (to - from)
}

// The last key of a part.
fn last_key(part: u32, a: u32) -> u32
    requires { (part < 2 ^ 23) × (a ≤ most_part) }
    ensures { result ≡ (part + 1) * 2 ^ a - 1 }
{
    (part + 1) * digits::power(a as usize) - 1
}

// The numbers of one part, in the cells from .. to, cut: the keys of its clumps from `keys` on, and what is left from `rest` on.
fn cut_part(
    s: &mut [u32],
    from: usize,
    to: usize,
    part: u32,
    a: u32,
    b: usize,
    keys: usize,
    rest: usize,
) -> Ends
    requires { PartAsked s.old from to part a b keys rest }
    ensures { PartCut from to a b keys rest result.keys result.rest s.old s.new }
{
    let limit = (part + 1) * a;
    let top = last_key(part, a);
    let w = to - (to - from) % b;
    let keys = cut_run(s, from, w, b, limit, top, keys);
    let rest = copy(s, w, to, rest);
    Ends { keys, rest }
}

// A row, in the cells from .. to, cut: the keys of its clumps from `keys` on, and its overflow from `rest` on.
fn cut_row(
    s: &mut [u32],
    from: usize,
    to: usize,
    a: u32,
    b: usize,
    keys: usize,
    rest: usize,
) -> Ends
    requires { RowAsked s.old from to a b keys rest }
    ensures { RowCut from to a b keys rest result.keys result.rest s.old s.new }
{
    let mut ends = Ends { keys, rest };
    let mut i = from;
    // Each turn takes a whole run, so no range counts the turns.
    while i < to {
        let part = s[i] / a;
        let e = run_end(s, i, to, (part + 1) * a);
        ends = cut_part(s, i, e, part, a, b, ends.keys, ends.rest);
        i = e;
    }
    ends
}

// The rows cut one after the other, the first places being set.
fn cut_each(s: &mut [u32], at: usize, m: usize, l: Pair, keys: usize, rest: usize) -> Ends
    requires { Placed s.old at m l keys rest }
    ensures { RowsCut at m l keys rest result s.old s.new }
{
    let mut ends = Ends {
        keys: keys + m + 1,
        rest: rest + m + 1,
    };
    for j in 0..m {
        let f = s[at + j] as usize;
        let t = s[at + j + 1] as usize;
        ends = cut_row(s, f, t, l.a, l.b, ends.keys, ends.rest);
        s[keys + j + 1] = ends.keys as u32;
        s[rest + j + 1] = ends.rest as u32;
    }
    ends
}

// Each of the m rows at a cell cut: the keys of its clumps in a row at `keys`, and its overflow in a row at `rest`.
pub fn cut_rows(s: &mut [u32], at: usize, m: usize, l: Pair, keys: usize, rest: usize) -> Ends
    requires { CutAsked s.old at m l keys rest }
    ensures { RowsCut at m l keys rest result s.old s.new }
{
    s[keys] = (keys + m + 1) as u32;
    s[rest] = (rest + m + 1) as u32;
    cut_each(s, at, m, l, keys, rest)
}
