// Bit fields, most significant bit first.
#![tactic(auto)]

ghost use Rattle.std.specs.Prelude.{◌≡◌, ◌+◌, ◌-◌, ◌*◌, ◌/◌, ◌≤◌, ◌<◌, length};
ghost use Rattle.chain.specs.Written.{over};
ghost use Rattle.bits.specs.Bits.{bits};
ghost use Rattle.bits.specs.Inner.{ByteAt, LastBytes, WordAt, FieldRoom, FieldTaken, TwoRoom, TwoTaken, FieldFill, FieldStored};

// A bit position of a file.
#[derive(Clone, Copy)]
pub struct Cursor {
    pub at: usize,
}

// A field that was read, and the position past it.
#[derive(Clone, Copy)]
pub struct Field {
    pub value: usize,
    pub next: Cursor,
}

// Two fields that were read, one behind the other, and the position past them.
#[derive(Clone, Copy)]
pub struct TwoFields {
    pub first: usize,
    pub second: usize,
    pub next: Cursor,
}

fn byte(file: &[u8], i: usize) -> u64
    requires { i < length file.now }
    ensures { ByteAt file.now i result }
{
    u64::from(file[i])
}

// The four bytes from i on as one number. They are read as one word.
fn word(file: &[u8], i: usize) -> u64
    requires { i + 4 ≤ length file.now }
    ensures { WordAt 4 file.now i result }
{
    let a = byte(file, i);
    let b = byte(file, i + 1);
    let c = byte(file, i + 2);
    let d = byte(file, i + 3);
    ((a * 256 + b) * 256 + c) * 256 + d
}

// The bytes from i to the end, fewer than eight, as the first of eight with 0 after them. A loop is short, so that what gathers is compiled into its callers.
fn gather_last(file: &[u8], i: usize) -> u64
    requires { LastBytes file.now i }
    ensures { WordAt 8 file.now i result }
{
    let mut x = 0;
    for j in 0..file.len() - i {
        x += byte(file, i + j) << (56 - 8 * j);
    }
    x
}

// The eight bytes from i on as one number. They are read as two words.
fn eight(file: &[u8], i: usize) -> u64
    requires { i + 8 ≤ length file.now }
    ensures { WordAt 8 file.now i result }
{
    let x = word(file, i);
    let y = word(file, i + 4);
    x * 4294967296 + y
}

// The eight bytes from i on as one number, with 0 past the end.
fn gather(file: &[u8], i: usize) -> u64
    requires { i ≤ length file.now }
    ensures { WordAt 8 file.now i result }
{
    if i + 8 <= file.len() {
        eight(file, i)
    } else {
        gather_last(file, i)
    }
}

// A file's bytes, over the front of a longer slice. What is taken from a file of fewer than eight bytes is taken from such a copy.
pub fn lengthen(file: &[u8], long: &mut [u8])
    requires { length file.now ≤ length long.old }
    ensures { long.new ≡ over file.now long.old }
{
    for i in 0..file.len() {
        long[i] = file[i];
    }
}

impl Cursor {
    // The field of width bits at the cursor, and the cursor past it. Eight bytes cover it with a bit to spare, so that the shift stays below 64.
    pub fn take(self, file: &[u8], width: usize) -> Field
        requires { FieldRoom file.now self.at width }
        ensures { FieldTaken file.now self.at width result.value result.next.at }
    {
        let at = self.at;
        let all = gather(file, at / 8);
        let right = 63 - (at % 8 + width);
        let value = (all / 2 >> right) % (1u64 << width);
        Field {
            value: value as usize,
            next: Cursor { at: at + width },
        }
    }

    // The next two fields of width bits, out of eight bytes that the file has, from the first field's byte or the eighth byte from the end on: nothing is
    // asked of the file's end, so that a loop that takes them stays short.
    pub fn take_two(self, file: &[u8], width: usize) -> TwoFields
        requires { TwoRoom file.now self.at width }
        ensures { TwoTaken file.now self.at width result.first result.second result.next.at }
    {
        let at = self.at;
        let i = (at / 8).min(file.len() - 8);
        let used = at - 8 * i + 2 * width;
        let value = eight(file, i) >> (64 - used);
        let first = (value >> width) % (1u64 << width);
        let second = value % (1u64 << width);
        TwoFields {
            first: first as usize,
            second: second as usize,
            next: Cursor { at: at + 2 * width },
        }
    }

    // Writes value as a field of width bits at the cursor, with zero bits after it to the end of its last byte.
    pub fn put(self, buf: &mut [u8], width: usize, value: u64) -> Cursor
        requires { FieldFill buf.old self.at width value }
        ensures { FieldStored buf.old self.at width (bits width value) buf.new result.at }
    {
        let at = self.at;
        let i = at / 8;
        let used = at % 8 + width;
        let right = 8 - at % 8;
        let head = (u64::from(buf[i]) >> right) << right;
        octets::scatter_wide(buf, i, (used + 7) / 8, head, value << (64 - used));
        Cursor { at: at + width }
    }
}
