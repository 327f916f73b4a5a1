// What sums and maxima over ranges are made of.
#![tactic(auto)]

ghost use Rattle.std.specs.Prelude.{◌≡◌, ◌+◌, ◌-◌, max};
ghost use Rattle.digits.specs.Range.{sign};

// The larger of two numbers.
pub fn larger(x: u32, y: u32) -> u32
    ensures { result ≡ max x y }
{
    x.max(y)
}

// 0 for 0, else 1.
pub fn sign(x: u32) -> usize
    ensures { result ≡ sign x }
{
    usize::from(x != 0)
}

// x less some, or 0.
pub fn lessened(x: usize, less: usize) -> usize
    ensures { result ≡ x - less }
{
    x.saturating_sub(less)
}

// The sum of two numbers, which 64 bits hold.
pub fn plus(a: u32, b: u32) -> u64
    ensures { result ≡ a + b }
{
    u64::from(a) + u64::from(b)
}
