// The refusals in words: the one place of their wording.
#![tactic(auto)]

ghost use Rattle.std.specs.Prelude.{◌≡◌, length};
ghost use Rattle.phrases.specs.Phrases.{phrase, phrase_number, phrase_words, phrase_text};

// The phrase of a number: the refusals of the specification have one, and from 101 on the faults of a text.
fn wording(number: u32) -> &'static [u8]
    ensures { result.now ≡ phrase number }
{
    match number {
        1 => b"p or q out of range",
        2 => b"amounts are not p times q",
        3 => b"method or parameter",
        4 => b"more than 16,000 steps",
        5 => b"a lent slice too short",
        6 => b"file under 4 bytes, or not its stated length",
        7 => b"edition",
        8 => b"a filling bit set",
        9 => b"operand 0",
        10 => b"operand not below its own value",
        11 => b"first operand smaller than second",
        12 => b"output above the last value",
        13 => b"exponent too large",
        14 => b"an output's exponents are not its payslip",
        15 => b"modulus 0",
        16 => b"bases not p, or one not below the modulus",
        17 => b"column counts differ",
        18 => b"a digit above 9, or a sign that is not C, D or F",
        19 => b"sign D, minus",
        20 => b"amount above 999,999,999",
        101 => b"neither a digit nor a separator",
        102 => b"number above 4,294,967,295",
        103 => b"cut off: the last line has no newline",
        104 => b"a line with more or fewer amounts than the first",
        105 => b"decimal point or grouping mark",
        106 => b"sign",
        107 => b"no amount between two separators",
        _ => b"no such refusal",
    }
}

// The phrase of a number over the front of a text; the words answer its length.
pub fn phrase(number: u32, text: &mut [u8], answer: &mut [u64; 8]) -> u32
    ensures value { result ≡ phrase_number number (length text.old) }
    ensures answer_after { answer.new ≡ phrase_words number (length text.old) }
    ensures text_after { text.new ≡ phrase_text number text.old }
{
    let words = wording(number);
    if text.len() < words.len() {
        *answer = [0, 0, 0, 0, 0, 0, 0, 0];
        return 5;
    }
    let _ = decimal::put_word(words, 0, text);
    *answer = [words.len() as u64, 0, 0, 0, 0, 0, 0, 0];
    0
}
