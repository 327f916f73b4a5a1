// How wide the numbers of a file are.
#![tactic(auto)]

ghost use Rattle.std.specs.Prelude.{◌≡◌};
ghost use Rattle.width.specs.Cases.{width_by_cases};

// W by cases, as the receivers' manual has them, for the number of the chain's last value, p + n; 0 where it is in none.
pub fn by_cases(last: usize) -> usize
    ensures { result ≡ width_by_cases last }
{
    match last {
        1 => 1,
        2..=3 => 2,
        4..=7 => 3,
        8..=15 => 4,
        16..=31 => 5,
        32..=63 => 6,
        64..=127 => 7,
        128..=255 => 8,
        256..=511 => 9,
        512..=1023 => 10,
        1024..=2047 => 11,
        2048..=4095 => 12,
        4096..=8191 => 13,
        8192..=16383 => 14,
        _ => 0,
    }
}
