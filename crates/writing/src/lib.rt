// The file of a chain, written.
#![tactic(auto)]

ghost use Rattle.std.specs.Prelude.{◌≡◌, ◌/◌, length};
ghost use Rattle.chain.specs.Tests.{◌<?◌};
ghost use Rattle.chain.specs.Verdict.{◌then◌, refuse_if};
ghost use Rattle.chain.specs.Judgement.{verdict_of, counted_of};
ghost use Rattle.chain.specs.Written.{over};
ghost use Rattle.chain.specs.Chain.{pairs, chain_rule};
ghost use Rattle.legal.specs.Inner.{ValuesFit};
ghost use Rattle.bits.specs.Inner.{FieldStored};
ghost use Rattle.layout.specs.Layout.{edition1};
ghost use Rattle.layout.specs.File.{header_bits, header_size, file_of, write_answer, write_bytes};
ghost use Rattle.layout.specs.Inner.{SoundLayout};
ghost use Rattle.writing.specs.Inner.{HeaderFill, ToWrite, Wrote};

use bits::Cursor;
use chain::Flat;
use layout::{Extent, Layout};
use refusal::{Reason, Refusal};

// The steps, 12, then 5 where fewer bytes are lent than the file has.
#[tactic(auto, using(chain::proofs::Rules::judging, chain::proofs::Pairs::length_pairs))]
fn judge_rest(
    p: usize,
    steps: &[u32],
    outputs: &[u32],
    count: usize,
    lent: usize,
) -> Result<(), Refusal>
    requires { ValuesFit p (length steps.now / 2) }
    ensures { verdict_of result ≡ (chain_rule p (pairs steps.now) outputs.now then refuse_if (lent <? count) 5 0) }
{
    legal::judge_chain(p, &Flat { numbers: steps }, outputs)?;
    if lent < count {
        return Err(Reason::Room.into());
    }
    Ok(())
}

fn put_header(layout: Layout, s: Extent, bytes: &mut [u8]) -> Cursor
    requires { HeaderFill layout s bytes.old }
    ensures { FieldStored bytes.old 0 (header_size layout) (header_bits layout s.p s.q s.n) bytes.new result.at }
{
    let start = Cursor { at: 0 };
    let c = start.put(bytes, 4, layout.edition as u64);
    let d = c.put(bytes, 4, (s.p - 1) as u64);
    let e = d.put(bytes, 6, (s.q - 1) as u64);
    e.put(bytes, layout.bits, s.n as u64)
}

// Writes the file of a chain that may be written.
fn put_chain(layout: Layout, s: Extent, steps: &[u32], outputs: &[u32], bytes: &mut [u8])
    requires { ToWrite layout s steps.now outputs.now (length bytes.old) }
    ensures { bytes.new ≡ over (file_of layout s.p (pairs steps.now) outputs.now) bytes.old }
{
    let c = put_header(layout, s, bytes);
    let d = fields::put_fields(bytes, c, s.width, steps, 2 * s.n);
    fields::put_fields(bytes, d, s.width, outputs, outputs.len());
}

// The width is found once the sizes are judged, and nothing is stored before all is.
fn write_as(
    layout: Layout,
    p: usize,
    steps: &[u32],
    outputs: &[u32],
    bytes: &mut [u8],
) -> Result<usize, Refusal>
    requires { SoundLayout layout }
    ensures { Wrote layout p steps.now outputs.now bytes.old (counted_of result) bytes.new }
{
    shape::judge_shape(layout.limit, p, outputs.len(), steps.len() / 2)?;
    let s = layout::extent_of(layout, p, outputs.len(), steps.len() / 2);
    judge_rest(p, steps, outputs, s.bytes, bytes.len())?;
    put_chain(layout, s, steps, outputs, bytes);
    Ok(s.bytes)
}

// Writes the file of a chain into the lent bytes.
pub fn write(p: usize, steps: &[u32], outputs: &[u32], bytes: &mut [u8]) -> Result<usize, Refusal>
    ensures result_value { counted_of result ≡ write_answer edition1 p (pairs steps.now) outputs.now (length bytes.old) }
    ensures bytes_after { bytes.new ≡ write_bytes edition1 p (pairs steps.now) outputs.now bytes.old }
{
    write_as(layout::first_edition(), p, steps, outputs, bytes)
}
