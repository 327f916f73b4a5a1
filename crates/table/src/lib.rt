// A table of amounts, one payslip a line, read.
#![tactic(auto)]

ghost use Rattle.std.specs.Prelude.{◌≡◌, ◌+◌, ◌^◌, ◌≤◌, ◌<◌, length, drop};
ghost use Rattle.chain.specs.Chain.{most_columns};
ghost use Rattle.chain.specs.Written.{over};
ghost use Rattle.places.specs.Places.{number_told, words_told};
ghost use Rattle.text.specs.Inner.{FoundTo, ReadTo};
ghost use Rattle.lines.specs.Lines.{lines_of, content_of};
ghost use Rattle.table.specs.Table.{row_found, rows_from, headed, table_in, table_of};

use lines::Head;
use places::{Fault, Refusal, Spot};
use text::{Flaw, Parting};

// A line of amounts without its carriage return, judged, and read over the cells after those that are filled.
fn read_content(
    by: Parting,
    p: usize,
    payslips: usize,
    filled: usize,
    line: &[u8],
    amounts: &mut [u32],
) -> Result<usize, Flaw>
    requires { (p ≤ most_columns) × (filled ≤ length amounts.old) }
    ensures { FoundTo (row_found by p (length amounts.old) payslips filled line.now) filled amounts.old result amounts.new }
{
    if payslips == chain::MOST_PAYSLIPS {
        return Err(Flaw {
            fault: Fault::OutOfRange,
            place: 1,
            found: chain::MOST_PAYSLIPS + 1,
            wanted: chain::MOST_PAYSLIPS,
        });
    }
    let fields = lines::field_count(by, line);
    if fields != p {
        return Err(Flaw {
            fault: Fault::OtherFields,
            place: line.len() + 1,
            found: fields,
            wanted: p,
        });
    }
    if amounts.len() < filled + p {
        return Err(Flaw {
            fault: Fault::NoRoom,
            place: 1,
            found: amounts.len(),
            wanted: filled + p,
        });
    }
    text::parse(by, line, filled, p, amounts)
}

// A line of amounts as it stands before its newline.
fn read_row(
    by: Parting,
    p: usize,
    payslips: usize,
    filled: usize,
    line: &[u8],
    amounts: &mut [u32],
) -> Result<usize, Flaw>
    requires { (p ≤ most_columns) × (filled ≤ length amounts.old) }
    ensures { FoundTo (row_found by p (length amounts.old) payslips filled (content_of line.now)) filled amounts.old result
        amounts.new }
{
    let content = &line[..lines::content_length(line)];
    read_content(by, p, payslips, filled, content, amounts)
}

// The lines of amounts, the first of which has a number and stands at a place.
fn read_rows(
    by: Parting,
    p: usize,
    first: usize,
    start: usize,
    text: &[u8],
    amounts: &mut [u32],
) -> Result<(usize, usize), Refusal<Fault>>
    requires { (p ≤ most_columns) × (start ≤ length text.now + 1) × (first ≤ start + 2) }
    ensures { ReadTo (rows_from by p (length amounts.old) 0 0 first (lines_of (drop start text.now))) amounts.old result
        amounts.new }
{
    let mut at = start;
    let mut line = first;
    let mut payslips = 0;
    let mut filled = 0;
    // a `while`, since the place jumps from line to line
    while at < text.len() {
        let end = lines::line_end(text, at);
        match read_row(by, p, payslips, filled, &text[at..end], amounts) {
            Ok(n) => filled += n,
            Err(flaw) => {
                return Err(Refusal {
                    fault: flaw.fault,
                    spot: Spot {
                        line,
                        column: flaw.place,
                    },
                    found: flaw.found,
                    wanted: flaw.wanted,
                });
            }
        }
        payslips += 1;
        line += 1;
        at = end + 1;
    }
    if payslips == 0 {
        return Err(Refusal {
            fault: Fault::OutOfRange,
            spot: Spot { line, column: 1 },
            found: 0,
            wanted: 1,
        });
    }
    Ok((p, payslips))
}

// A table whose first line, which ends at a place, has a head.
fn read_headed(
    head: Head,
    end: usize,
    text: &[u8],
    amounts: &mut [u32],
) -> Result<(usize, usize), Refusal<Fault>>
    requires { (end ≤ length text.now) × (head.stop + 1 < 2 ^ 64) }
    ensures { ReadTo (headed head (length amounts.old) (lines_of text.now) (lines_of (drop (end + 1) text.now)))
        amounts.old result amounts.new }
{
    let p = head.fields;
    if p == 0 || chain::MOST_COLUMNS < p {
        return Err(Refusal {
            fault: Fault::OutOfRange,
            spot: Spot {
                line: 1,
                column: head.stop + 1,
            },
            found: p,
            wanted: chain::MOST_COLUMNS,
        });
    }
    if head.digits == 0 {
        read_rows(head.by, p, 2, end + 1, text, amounts)
    } else {
        read_rows(head.by, p, 1, 0, text, amounts)
    }
}

// A table after its mark.
fn read_table(text: &[u8], amounts: &mut [u32]) -> Result<(usize, usize), Refusal<Fault>>
    ensures { ReadTo (table_in text.now (length amounts.old)) amounts.old result amounts.new }
{
    if ends::is_cut(text) {
        return Err(places::cut_text(text));
    }
    if text.is_empty() {
        return Err(Refusal {
            fault: Fault::OutOfRange,
            spot: Spot { line: 1, column: 1 },
            found: 0,
            wanted: 1,
        });
    }
    let end = lines::line_end(text, 0);
    read_headed(lines::first_line(&text[..end]), end, text, amounts)
}

// Reads a table over the front of the lent amounts, and answers its columns and its payslips.
pub fn table(text: &[u8], amounts: &mut [u32], answer: &mut [u64; 8]) -> u32
    ensures value { result ≡ number_told (table_of text.now (length amounts.old)).answer }
    ensures answer_after { answer.new ≡ words_told (table_of text.now (length amounts.old)).answer }
    ensures amounts_after { amounts.new ≡ over (table_of text.now (length amounts.old)).numbers amounts.old }
{
    let start = ends::mark_length(text);
    let read = read_table(&text[start..], amounts);
    tell_text::tell_text(read, answer)
}
