// A level of output clumping opened: the outputs of each input, cut; the clumps; and the next level's outputs.
#![tactic(auto)]

ghost use Rattle.opening.specs.Inner.{OpenAsked, OutputsOpened};

use cuts::Pair;
use row_products::Problem;

// The rows of what overflows of each input, of the clumps and how many they are, and of the next level's outputs, and where these end.
#[derive(Clone, Copy)]
pub struct Opened {
    pub rest: usize,
    pub clumps: usize,
    pub k: usize,
    pub next: usize,
    pub made: usize,
}

// A level of output clumping, opened behind the room for its outputs' values.
pub fn open_outputs(s: &mut [u32], t: Problem, l: Pair, to: usize) -> Opened
    requires { OpenAsked s.old t l to }
    ensures { OutputsOpened t l to result s.old s.new }
{
    let members = s[t.outs + t.m] as usize - (t.outs + t.m + 1);
    let keys = to + t.m;
    let rest = keys + t.n + 1 + members / l.b;
    let of = rest + t.n + 1 + members;
    rows::transpose(s, t.outs, t.m, t.n, of);
    let c = level::cut_level(s, of, t.n, t.m, l, keys, rest);
    let made = rows::transpose(s, keys, t.n, c.k, c.end);
    Opened {
        rest,
        clumps: c.clumps,
        k: c.k,
        next: c.end,
        made,
    }
}
