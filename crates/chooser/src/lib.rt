// The better of two files, handed back as the lender's own bytes.
#![tactic(auto)]

ghost use Rattle.std.specs.Prelude.{◌/◌, length};
ghost use Rattle.choose.specs.Choose.{choice, Handed};

use answers::Chosen;

// The better of two files that make the sheet, the shorter chain first and else the first file: that very slice, with number and place 0. Where neither
// will do, an empty part, and the first file's refusal by number and place.
pub fn choose<'a>(
    p: usize,
    q: usize,
    amounts: &[u32],
    a: &'a [u8],
    b: &'a [u8],
    steps: &mut [u32],
    outputs: &mut [u32],
    numbers: &mut [u32],
    number: &mut u32,
    place: &mut usize,
) -> &'a [u8]
    ensures { Handed (choice p q amounts.now a.now b.now
        (length steps.old / 2) (length outputs.old) (length numbers.old)) a.entry
        b.entry result number.new place.new }
{
    *number = 0;
    *place = 0;
    match choose::decide(p, q, amounts, a, b, steps, outputs, numbers) {
        Ok(Chosen::First) => a,
        Ok(Chosen::Second) => b,
        Err(refusal) => {
            *number = refusal.reason.number();
            *place = refusal.place;
            &a[..0]
        }
    }
}
