// The bytes of a number, stored into a buffer, the highest first.
#![tactic(auto)]

ghost use Rattle.std.specs.Prelude.{◌≡◌, ◌+◌, ◌*◌, ◌%◌, ◌^◌, ◌≤◌, ◌<◌, length, take};
ghost use Rattle.chain.specs.Written.{laid};
ghost use Rattle.octets.specs.Inner.{spread};

fn low_byte(x: u64) -> u8
    ensures { result ≡ x % 256 }
{
    (x % 256) as u8
}

// The first count of the lowest four bytes of x, stored from i on, the first one with head added to it. Only that one waits for what the buffer held.
fn scatter(buf: &mut [u8], i: usize, count: usize, head: u64, x: u64)
    requires { (1 ≤ count) × (count ≤ 4) × (i + count ≤ length buf.old) × (head < 256) }
    ensures { buf.new ≡ laid i (take count (spread 4 (head * 2 ^ 24 + x))) buf.old }
{
    buf[i] = low_byte(head + (x >> 24));
    if count < 2 {
        return;
    }
    buf[i + 1] = low_byte(x >> 16);
    if count < 3 {
        return;
    }
    buf[i + 2] = low_byte(x >> 8);
    if count < 4 {
        return;
    }
    buf[i + 3] = low_byte(x);
}

// The same of the eight bytes of x. Most fields that are put fill four bytes or more, so the first four ask for no count.
pub fn scatter_wide(buf: &mut [u8], i: usize, count: usize, head: u64, x: u64)
    requires { (1 ≤ count) × (count ≤ 8) × (i + count ≤ length buf.old) × (head < 256) }
    ensures { buf.new ≡ laid i (take count (spread 8 (head * 2 ^ 56 + x))) buf.old }
{
    if count < 4 {
        scatter(buf, i, count, head, x >> 32);
        return;
    }
    scatter(buf, i, 4, head, x >> 32);
    if count > 4 {
        scatter(buf, i + 4, count - 4, 0, x);
    }
}
