// The listing of a file, as text.
#![tactic(auto)]

ghost use Rattle.std.specs.Prelude.{◌≡◌, [], ◌∷◌, ◌+◌, ◌*◌, ◌≤◌, length, get_or};
ghost use Rattle.chain.specs.Verdict.{answer};
ghost use Rattle.chain.specs.Written.{over, laid};
ghost use Rattle.chain.specs.Chain.{most_payslips, pairs, pick, exponent_of};
ghost use Rattle.chain.specs.Judgement.{verdict_of, answer_of};
ghost use Rattle.verify.specs.Verify.{exponents_rule};
ghost use Rattle.layout.specs.File.{columns_of, payslips_of};
ghost use Rattle.answers.specs.Answers.{chain_in};
ghost use Rattle.listing.specs.Listing.{more_fields, line_of, payslip_lines, amount_of, listing_rule, chain_text, refused_text, listing};
ghost use Rattle.listing.specs.Inner.{amount_in, TableHolds, AmountsTold, sizes_of, most_field, most_sizes, most_line, most_text};
ghost use Rattle.listing.specs.Inner.{LineAsked, LinesAsked, SizesAsked, ListingAsked, GatherAsked, MeasureAsked, FileRoom};
ghost use Rattle.decimal.specs.Inner.{Put, PutShort};
ghost use Rattle.decimal.specs.Decimal.{blank, decimal};
ghost use Rattle.digits.specs.Range.{list_to};

use answers::ReadChain;
use chain::Flat;
use refusal::{Reason, Refusal};

// The longest parts of a listing: a blank and the digits of an amount; the first line; a payslip's line.
const MOST_FIELD: usize = 11;

const MOST_SIZES: usize = 2 + 1 + 2 + 1 + 5 + 1;

const MOST_LINE: usize = 2 + MOST_FIELD * chain::MOST_COLUMNS + 1;

// Room for every listing.
pub const MOST_TEXT: usize = MOST_SIZES + MOST_LINE * chain::MOST_PAYSLIPS;

// The longest file.
const MOST_BYTES: usize = layout::LONGEST_FILE;

// A blank and a number.
fn put_field(x: u32, at: usize, text: &mut [u8]) -> usize
    requires { at + length (blank ∷ decimal x) ≤ length text.old }
    ensures { Put at (blank ∷ decimal x) text.old result text.new }
{
    text[at] = b' ';
    decimal::put_decimal(x as usize, at + 1, text)
}

// The amounts of payslip i, each after a blank. The table has a cell for every payslip that a sheet can have, column after column.
fn put_amounts(i: usize, p: usize, table: &[u32], at: usize, text: &mut [u8]) -> usize
    requires { LineAsked (most_field * p) i p table.now at text.old }
    ensures { PutShort (most_field * p) at (more_fields (list_to p (amount_in table.now i))) text.old result text.new }
{
    let mut end = at;
    for c in 0..p {
        end = put_field(table[chain::MOST_PAYSLIPS * c + i], end, text);
    }
    end
}

// The line of payslip i.
fn put_payslip(i: usize, p: usize, table: &[u32], at: usize, text: &mut [u8]) -> usize
    requires { LineAsked most_line i p table.now at text.old }
    ensures { PutShort most_line at (line_of (i + 1) (list_to p (amount_in table.now i))) text.old result text.new }
{
    let first = decimal::put_decimal(i + 1, at, text);
    let end = put_amounts(i, p, table, first, text);
    text[end] = b'\n';
    end + 1
}

// The lines of the payslips.
fn put_payslips(p: usize, q: usize, table: &[u32], at: usize, text: &mut [u8]) -> usize
    requires { LinesAsked p q table.now at text.old }
    ensures { Put at (payslip_lines p (amount_in table.now) q) text.old result text.new }
{
    let mut end = at;
    for i in 0..q {
        end = put_payslip(i, p, table, end, text);
    }
    end
}

// The line `p q n`.
fn put_sizes(p: usize, q: usize, n: usize, text: &mut [u8]) -> usize
    requires { SizesAsked most_sizes p q n text.old }
    ensures { PutShort most_sizes 0 (line_of p (q ∷ n ∷ [])) text.old result text.new }
{
    let first = decimal::put_decimal(p, 0, text);
    let second = put_field(q as u32, first, text);
    let end = put_field(n as u32, second, text);
    text[end] = b'\n';
    end + 1
}

// The listing of a chain whose amounts stand in the table.
fn put_chain(p: usize, q: usize, n: usize, table: &[u32], text: &mut [u8]) -> usize
    requires { ListingAsked p q n table.now text.old }
    ensures { Put 0 (chain_text p q n (amount_in table.now)) text.old result text.new }
{
    let at = put_sizes(p, q, n, text);
    put_payslips(p, q, table, at, text)
}

// The one line of a refusal.
fn put_refused(number: u32, text: &mut [u8]) -> usize
    requires { most_text ≤ length text.old }
    ensures { Put 0 (refused_text number) text.old result text.new }
{
    let first = decimal::put_word(b"refused ", 0, text);
    let end = decimal::put_decimal(number as usize, first, text);
    text[end] = b'\n';
    end + 1
}

// The amounts of column c at the outputs, into the column's cells of the table.
#[tactic(auto, using(crate::proofs::Tables::over_part))]
fn gather(c: usize, outputs: &[u32], values: &[u32], table: &mut [u32])
    requires { GatherAsked c outputs.now values.now table.old }
    ensures { table.new ≡ laid (most_payslips * c) (pick values.now outputs.now) table.old }
{
    chain::show(outputs, values, &mut table[chain::MOST_PAYSLIPS * c..]);
}

// 13: the exponents of all columns at the outputs into the table, where none is too large.
fn measure(
    p: usize,
    steps: &[u32],
    outputs: &[u32],
    scratch: &mut [u32],
    table: &mut [u32],
) -> Result<(), Refusal>
    requires { MeasureAsked p steps.now outputs.now scratch.old table.old }
    ensures { AmountsTold (verdict_of result) (exponents_rule p (pairs steps.now)) (verdict_of result)
        (TableHolds table.new (length outputs.now) p (λ i c. exponent_of p (pairs steps.now) c (get_or outputs.now i 0))) }
{
    let mut large: usize = 0;
    for c in 0..p {
        let place = checker::column(p, c, &Flat { numbers: steps }, scratch);
        gather(c, outputs, scratch, table);
        large = verify::earlier(large, place);
    }
    if large != 0 {
        return Err(Refusal {
            reason: Reason::Exponent,
            place: large,
        });
    }
    Ok(())
}

// The file's p, q and n, and its amounts into the table, or the refusal.
fn measure_file(
    bytes: &[u8],
    steps: &mut [u32],
    outputs: &mut [u32],
    scratch: &mut [u32],
    table: &mut [u32],
) -> Result<ReadChain, Refusal>
    requires { FileRoom steps.old outputs.old scratch.old table.old }
    ensures { AmountsTold (answer_of chain_in result) (answer (listing_rule bytes.now) (sizes_of bytes.now)) (listing_rule bytes.now)
        (TableHolds table.new (payslips_of bytes.now) (columns_of bytes.now) (amount_of bytes.now)) }
{
    if MOST_BYTES < bytes.len() {
        return Err(Reason::Length.into());
    }
    let read = reading::read(bytes, steps, outputs)?;
    measure(
        read.p,
        &steps[..2 * read.counts.steps],
        &outputs[..read.q],
        scratch,
        table,
    )?;
    Ok(read)
}

// The listing of a file over the front of the text; how many bytes it has.
pub fn list(bytes: &[u8], text: &mut [u8; MOST_TEXT]) -> usize
    ensures value { result ≡ length (listing bytes.now) }
    ensures text_after { text.new ≡ over (listing bytes.now) text.old }
{
    let mut steps = [0u32; 2 * layout::EDITION_1_STEPS];
    let mut outputs = [0u32; chain::MOST_PAYSLIPS];
    let mut scratch = [0u32; layout::EDITION_1_VALUES];
    let mut table = [0u32; chain::MOST_PAYSLIPS * chain::MOST_COLUMNS];
    match measure_file(bytes, &mut steps, &mut outputs, &mut scratch, &mut table) {
        Ok(read) => put_chain(read.p, read.q, read.counts.steps, &table, text),
        Err(refusal) => put_refused(refusal.reason.number(), text),
    }
}
