// Method 1, Straus, or Brauer for one column: its definitions and laws, and what counting and emitting both look at.
#![tactic(auto)]

ghost use Rattle.std.specs.Prelude.{◌≡◌, ◌+◌, ◌*◌, ◌≤◌, length};
ghost use Rattle.digits.specs.Range.{or_to};
ghost use Rattle.sheet.specs.Sheet.{amount};

// The amounts of payslip i, one over the other: they have as many digits as the largest, and a digit is 0 exactly where all are.
#[tactic(auto, using(digits::proofs::Overlay::or_on))]
pub fn overlaid(p: usize, amounts: &[u32], i: usize) -> u32
    requires { i * p + p ≤ length amounts.now }
    ensures { result ≡ or_to p (amount p amounts.now i) }
{
    let mut all: u32 = 0;
    for c in 0..p {
        all |= sheet::amount(p, amounts, i, c);
    }
    all
}
