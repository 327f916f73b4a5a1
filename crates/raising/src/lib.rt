// Rows of two kinds made into one: each row of the first, and behind it the row of the second with its numbers raised.
#![tactic(auto)]

ghost use Rattle.std.specs.Prelude.{◌≡◌, ◌+◌, get_or};
ghost use Rattle.rows.specs.Inner.{RowsOver};
ghost use Rattle.raising.specs.Inner.{RaiseAsked, Raised};
ghost use Rattle.raising.specs.Inner.{raised_row, RowAsked, RowRaised};

// The cells from .. to, each raised by k, laid from r on: where they end.
fn raise(s: &mut [u32], from: usize, to: usize, k: usize, r: usize) -> usize
    requires { RowAsked s.old from to k r }
    ensures { RowRaised from to k r result s.old s.new }
{
    let mut e = r;
    for i in from..to {
        let x = k + s[i] as usize;
        s[e] = x as u32;
        e += 1;
    }
    e
}

// The rows laid one after the other, the first place being set.
fn raise_each(s: &mut [u32], front: usize, back: usize, m: usize, k: usize, to: usize) -> usize
    requires { RaiseAsked s.old front back m k to × (get_or s.old to 0 ≡ to + m + 1) }
    ensures { RowsOver to m m result (raised_row s.old front back k) s.old s.new }
{
    let mut e = to + m + 1;
    for j in 0..m {
        let f = s[front + j] as usize;
        let t = s[front + j + 1] as usize;
        let g = s[back + j] as usize;
        let u = s[back + j + 1] as usize;
        e = cuts::copy(s, f, t, e);
        e = raise(s, g, u, k, e);
        s[to + j + 1] = e as u32;
    }
    e
}

// The m rows at `front`, and behind each the row at `back` with its numbers raised by k, laid as rows at a cell: where they end.
pub fn raise_rows(s: &mut [u32], front: usize, back: usize, m: usize, k: usize, to: usize) -> usize
    requires { RaiseAsked s.old front back m k to }
    ensures { Raised front back m k to result s.old s.new }
{
    s[to] = (to + m + 1) as u32;
    raise_each(s, front, back, m, k, to)
}
