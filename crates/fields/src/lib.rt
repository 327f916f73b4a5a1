// Lists of numbers as bit fields of one width.
#![tactic(auto)]

ghost use Rattle.std.specs.Prelude.{◌≡◌, ◌*◌, take};
ghost use Rattle.bits.specs.Bits.{fields};
ghost use Rattle.bits.specs.Inner.{FieldStored};
ghost use Rattle.fields.specs.Inner.{FrontFill, FieldsRoom, LongRoom, FieldsTaken};

use bits::Cursor;

// Writes the first count numbers of the list as fields of width bits, one after the other. Two at a time are put as one field of twice the width: each
// put waits for the one before it.
pub fn put_fields(buf: &mut [u8], from: Cursor, width: usize, list: &[u32], count: usize) -> Cursor
    requires { FrontFill buf.old from.at width count list.now }
    ensures { FieldStored buf.old from.at (count * width)
        (fields width (take count list.now)) buf.new result.at }
{
    let mut c = from;
    let mut j = 0;
    // a `while`, as below, since two fields go at a turn
    while count - j >= 2 {
        let both = (u64::from(list[j]) << width) + u64::from(list[j + 1]);
        c = c.put(buf, 2 * width, both);
        j += 2;
    }
    if j < count {
        c = c.put(buf, width, u64::from(list[j]));
    }
    c
}

// Reads count fields of width bits into the first cells of out, two at a time and a last odd one by itself, from a file of eight bytes or more.
fn take_long(file: &[u8], from: Cursor, width: usize, count: usize, out: &mut [u32]) -> Cursor
    requires { LongRoom file.now from.at width count out.old }
    ensures { FieldsTaken file.now from.at width count out.old out.new result.at }
{
    let mut c = from;
    let mut i = 0;
    while count - i >= 2 {
        let two = c.take_two(file, width);
        out[i] = two.first as u32;
        out[i + 1] = two.second as u32;
        c = two.next;
        i += 2;
    }
    if i < count {
        let one = c.take(file, width);
        out[i] = one.value as u32;
        c = one.next;
    }
    c
}

// Reads count fields of width bits into the first cells of out. A short file is read from a copy that is long enough.
pub fn take_fields(file: &[u8], from: Cursor, width: usize, count: usize, out: &mut [u32]) -> Cursor
    requires { FieldsRoom file.now from.at width count out.old }
    ensures { FieldsTaken file.now from.at width count out.old out.new result.at }
{
    if file.len() < 8 {
        let mut long = [0u8; 8];
        bits::lengthen(file, &mut long);
        take_long(&long, from, width, count, out)
    } else {
        take_long(file, from, width, count, out)
    }
}
