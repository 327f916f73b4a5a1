// The file of a chain, read.
#![tactic(auto)]

ghost use Rattle.std.specs.Prelude.{◌≡◌, ◌+◌, ◌*◌, ◌/◌, length};
ghost use Rattle.chain.specs.Judgement.{verdict_of, counted_of, answer_of};
ghost use Rattle.chain.specs.Chain.{steps_rule, outputs_rule, squarings_of};
ghost use Rattle.chain.specs.Inner.{counted_by};
ghost use Rattle.fields.specs.Inner.{FieldsRoom};
ghost use Rattle.layout.specs.Layout.{edition1};
ghost use Rattle.layout.specs.File.{read_answer, read_steps, read_outputs};
ghost use Rattle.layout.specs.Inner.{SoundLayout};
ghost use Rattle.answers.specs.Answers.{chain_in};
ghost use Rattle.reading.specs.Inner.{HeaderRoom, header_in, headed, Proper, Contained, LongContained, file_steps, file_outputs, chain_counted, body_rule, BodyRead, FileRead, ListsTaken};

use answers::ReadChain;
use bits::Cursor;
use layout::{Extent, Layout};
use reader::BitReader;
use refusal::{Reason, Refusal};

// A file has no fewer bytes than its header takes (Spec 4.1).
const FEWEST_BYTES: usize = 4;

// What a header says.
#[derive(Clone, Copy)]
struct Header {
    edition: usize,
    p: usize,
    q: usize,
    n: usize,
}

// The header of a file in which n has so many bits.
fn take_header(bytes: &[u8], bits: usize) -> Header
    requires { HeaderRoom bytes.now bits }
    ensures { result ≡ header_in bytes.now bits }
{
    let start = BitReader {
        bytes: bytes,
        cursor: Cursor { at: 0 },
    };
    let edition = start.take(4);
    let columns = edition.next.take(4);
    let payslips = columns.next.take(6);
    let steps = payslips.next.take(bits);
    Header {
        edition: edition.value,
        p: columns.value + 1,
        q: payslips.value + 1,
        n: steps.value,
    }
}

// 6 (under 4 bytes), 7, 4; then the width is found.
fn judge_header(layout: Layout, bytes: &[u8]) -> Result<Extent, Refusal>
    requires { SoundLayout layout }
    ensures { headed layout bytes.now result }
{
    if bytes.len() < FEWEST_BYTES {
        return Err(Reason::Length.into());
    }
    let h = take_header(bytes, layout.bits);
    if h.edition != layout.edition {
        return Err(Reason::Edition.into());
    }
    shape::judge_length(layout.limit, h.n)?;
    Ok(layout::extent_of(layout, h.p, h.q, h.n))
}

// The steps of a file, in order: 9, 10, 11; and how many of them are squarings.
fn judge_steps(bytes: &[u8], x: Extent) -> Result<usize, Refusal>
    requires { LongContained bytes.now x }
    ensures { counted_of result ≡ counted_by (steps_rule x.p 1 (file_steps bytes.now x)) (squarings_of (file_steps bytes.now x)) }
{
    let mut c = Cursor { at: x.start };
    let mut squarings: usize = 0;
    for s in 0..x.n {
        let step = c.take_two(bytes, x.width);
        let a = step.first as u32;
        let b = step.second as u32;
        step::judge_step(x.p + s + 1, s + 1, a, b)?;
        squarings += chain::squaring(a, b);
        c = step.next;
    }
    Ok(squarings)
}

// The outputs of a file: 12.
fn judge_outputs(bytes: &[u8], x: Extent) -> Result<(), Refusal>
    requires { Contained bytes.now x }
    ensures { verdict_of result ≡ outputs_rule (x.p + x.n) 1 (file_outputs bytes.now x) }
{
    let top = x.p + x.n;
    let mut c = Cursor {
        at: x.start + 2 * x.n * x.width,
    };
    for i in 0..x.q {
        let output = c.take(bytes, x.width);
        if top < output.value {
            return Err(Refusal {
                reason: Reason::Output,
                place: i + 1,
            });
        }
        c = output.next;
    }
    Ok(())
}

// The chain of a file of eight bytes or more: steps, then 12; and how many of the steps are squarings.
fn judge_lists(bytes: &[u8], x: Extent) -> Result<usize, Refusal>
    requires { LongContained bytes.now x }
    ensures { counted_of result ≡ chain_counted bytes.now x }
{
    let squarings = judge_steps(bytes, x)?;
    judge_outputs(bytes, x)?;
    Ok(squarings)
}

// The chain of a file; that of a short one is judged in a copy that is long enough.
fn judge_chain(bytes: &[u8], x: Extent) -> Result<usize, Refusal>
    requires { Contained bytes.now x }
    ensures { counted_of result ≡ chain_counted bytes.now x }
{
    if bytes.len() < 8 {
        let mut long = [0u8; 8];
        bits::lengthen(bytes, &mut long);
        return judge_lists(&long, x);
    }
    judge_lists(bytes, x)
}

// 6, 5, 8, steps, 12, where there is room for so many pairs and places for so many outputs. n is not trusted before the length is right.
fn judge_body(bytes: &[u8], x: Extent, room: usize, places: usize) -> Result<usize, Refusal>
    requires { Proper x }
    ensures { counted_of result ≡ counted_by (body_rule bytes.now x room places) (squarings_of (file_steps bytes.now x)) }
{
    if bytes.len() != x.bytes {
        return Err(Reason::Length.into());
    }
    if room < x.n {
        return Err(Reason::Room.into());
    }
    if places < x.q {
        return Err(Reason::Room.into());
    }
    let end = Cursor { at: x.total };
    let filling = end.take(bytes, 8 * bytes.len() - x.total);
    if filling.value != 0 {
        return Err(Reason::Filling.into());
    }
    judge_chain(bytes, x)
}

// Reads n steps from a bit position on, then q outputs, in fields of w bits.
fn take_lists(
    bytes: &[u8],
    at: usize,
    w: usize,
    n: usize,
    q: usize,
    steps: &mut [u32],
    outputs: &mut [u32],
)
    requires { FieldsRoom bytes.now at w (2 * n) steps.old × FieldsRoom bytes.now (at + 2 * n * w) w q outputs.old }
    ensures { ListsTaken bytes.now at w n q steps.old outputs.old steps.new
        outputs.new }
{
    let start = BitReader {
        bytes: bytes,
        cursor: Cursor { at: at },
    };
    let next = reader::read_fields(start, w, 2 * n, steps);
    reader::read_fields(next, w, q, outputs);
}

// Reads the chain that stands in bytes by an extent. Everything is judged before anything is stored.
fn read_body(
    x: Extent,
    bytes: &[u8],
    steps: &mut [u32],
    outputs: &mut [u32],
) -> Result<ReadChain, Refusal>
    requires { Proper x }
    ensures { BodyRead bytes.now x steps.old outputs.old (answer_of chain_in result)
        steps.new outputs.new }
{
    let squarings = judge_body(bytes, x, steps.len() / 2, outputs.len())?;
    take_lists(bytes, x.start, x.width, x.n, x.q, steps, outputs);
    Ok(ReadChain {
        p: x.p,
        q: x.q,
        counts: answers::counts_of(x.n, squarings),
    })
}

// The header is decoded once, and all else is read by the extent that it gives.
fn read_as(
    layout: Layout,
    bytes: &[u8],
    steps: &mut [u32],
    outputs: &mut [u32],
) -> Result<ReadChain, Refusal>
    requires { SoundLayout layout }
    ensures { FileRead layout bytes.now steps.old outputs.old (answer_of chain_in result)
        steps.new outputs.new }
{
    let x = judge_header(layout, bytes)?;
    read_body(x, bytes, steps, outputs)
}

// Reads a file into the lent steps and outputs.
pub fn read(bytes: &[u8], steps: &mut [u32], outputs: &mut [u32]) -> Result<ReadChain, Refusal>
    ensures result_value { answer_of chain_in result ≡ read_answer edition1 bytes.now (length steps.old / 2) (length outputs.old) }
    ensures steps_after { steps.new ≡ read_steps edition1 bytes.now (length outputs.old) steps.old }
    ensures outputs_after { outputs.new ≡ read_outputs edition1 bytes.now (length steps.old / 2) outputs.old }
{
    read_as(layout::first_edition(), bytes, steps, outputs)
}
