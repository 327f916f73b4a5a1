// Text written into a lent slice part by part: numbers in decimal, and words as they are.
#![tactic(auto)]

ghost use Rattle.std.specs.Prelude.{◌+◌, ◌≤◌, length};
ghost use Rattle.decimal.specs.Decimal.{decimal};
ghost use Rattle.decimal.specs.Inner.{Put};

// The digits of a number from a place of the text on; the place after them.
pub fn put_decimal(x: usize, at: usize, text: &mut [u8]) -> usize
    requires { at + length (decimal x) ≤ length text.old }
    ensures { Put at (decimal x) text.old result text.new }
{
    if x < 10 {
        text[at] = b'0' + x as u8;
        return at + 1;
    }
    let end = put_decimal(x / 10, at, text);
    text[end] = b'0' + (x % 10) as u8;
    end + 1
}

// Bytes as they are.
pub fn put_word(word: &[u8], at: usize, text: &mut [u8]) -> usize
    requires { at + length word.now ≤ length text.old }
    ensures { Put at word.now text.old result text.new }
{
    for i in 0..word.len() {
        text[at + i] = word[i];
    }
    at + word.len()
}
