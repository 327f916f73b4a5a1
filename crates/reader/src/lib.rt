// A file's bytes and a bit position in them together: the next field, and the next fields of one width.
#![tactic(auto)]

ghost use Rattle.std.specs.Prelude.{◌≡◌};
ghost use Rattle.bits.specs.Inner.{FieldRoom, FieldTaken};
ghost use Rattle.fields.specs.Inner.{FieldsRoom, FieldsTaken};

use bits::Cursor;

// The bytes, and the position.
#[derive(Clone, Copy)]
pub struct BitReader<'a> {
    pub bytes: &'a [u8],
    pub cursor: Cursor,
}

// A field that was read, and the reader past it.
#[derive(Clone, Copy)]
pub struct ReadField<'a> {
    pub value: usize,
    pub next: BitReader<'a>,
}

impl<'a> BitReader<'a> {
    // The field of width bits at the reader's position, and a reader of the same bytes past it.
    pub fn take(self, width: usize) -> ReadField<'a>
        requires { FieldRoom self.bytes.now self.cursor.at width }
        ensures { FieldTaken self.entry.bytes.now self.entry.cursor.at width result.value
            result.next.cursor.at × (result.next.bytes ≡ self.entry.bytes) }
    {
        let field = self.cursor.take(self.bytes, width);
        ReadField {
            value: field.value,
            next: BitReader {
                cursor: field.next,
                ..self
            },
        }
    }
}

// Reads the next count fields of a reader into the first cells of out, and hands back the reader past them.
pub fn read_fields<'a>(
    reader: BitReader<'a>,
    width: usize,
    count: usize,
    out: &mut [u32],
) -> BitReader<'a>
    requires { FieldsRoom reader.bytes.now reader.cursor.at width count out.old }
    ensures { FieldsTaken reader.entry.bytes.now reader.entry.cursor.at width count out.old
        out.new result.cursor.at × (result.bytes ≡ reader.entry.bytes) }
{
    let cursor = fields::take_fields(reader.bytes, reader.cursor, width, count, out);
    BitReader { cursor, ..reader }
}
