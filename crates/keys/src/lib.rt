// A clump's key, one number by which clumps are told apart and put in order, and the clumps of keys.
#![tactic(auto)]

ghost use Rattle.std.specs.Prelude.{◌≡◌, ◌+◌, ◌-◌, get_or};
ghost use Rattle.std.proofs.Math.Seq.{slice};
ghost use Rattle.rows.specs.Inner.{RowsOver};
ghost use Rattle.keys.specs.Inner.{weight_of, members_of, clump_of, KeyAsked, clump_in, WeightAsked, ClumpAsked, NumbersLaid, ClumpsAsked, ClumpsLaid};

// The key of the clump in the cells from .. to: of its part's keys, the last of which is `top`, as far from the last as the clump weighs.
pub fn key(s: &[u32], from: usize, to: usize, limit: u32, top: u32) -> u32
    requires { KeyAsked s.now from to limit top }
    ensures { result ≡ top - weight_of limit (slice from to s.now) }
{
    let mut k = top;
    for x in &s[from..to] {
        k -= digits::power((limit - 1 - *x) as usize);
    }
    k
}

// The numbers of a weight laid from r on, of the last n below `to`: where they end.
fn lay_weight(s: &mut [u32], to: usize, n: usize, weight: u32, r: usize) -> usize
    requires { WeightAsked s.old to n weight r }
    ensures { NumbersLaid r result (members_of to n weight) s.old s.new }
{
    let mut w = weight;
    let mut e = r;
    for i in (0..n).rev() {
        let own = digits::power(i);
        if own <= w {
            s[e] = (to - 1 - i) as u32;
            e += 1;
            w -= own;
        }
    }
    e
}

// The numbers of a key laid from r on: where they end.
fn lay_clump(s: &mut [u32], key: u32, a: usize, r: usize) -> usize
    requires { ClumpAsked s.old key a r }
    ensures { NumbersLaid r result (clump_of a key) s.old s.new }
{
    let size = digits::power(a);
    let to = ((key / size) as usize + 1) * a;
    lay_weight(s, to, a, size - 1 - key % size, r)
}

// The clumps of k keys laid as rows behind their first place: where they end.
fn lay_rows(s: &mut [u32], keys: usize, k: usize, a: usize, to: usize) -> usize
    requires { ClumpsAsked s.old keys k a to × (get_or s.old to 0 ≡ to + k + 1) }
    ensures { RowsOver to k k result (λ j. clump_in a s.old (keys + j)) s.old s.new }
{
    let mut e = to + k + 1;
    for j in 0..k {
        let key = s[keys + j];
        e = lay_clump(s, key, a, e);
        s[to + j + 1] = e as u32;
    }
    e
}

// The clumps of k keys laid as rows at a cell: where they end.
pub fn lay_clumps(s: &mut [u32], keys: usize, k: usize, a: usize, to: usize) -> usize
    requires { ClumpsAsked s.old keys k a to }
    ensures { ClumpsLaid keys k a to result s.old s.new }
{
    s[to] = (to + k + 1) as u32;
    lay_rows(s, keys, k, a, to)
}
