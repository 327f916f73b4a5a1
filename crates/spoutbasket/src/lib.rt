// The C interface: one function for each entry point, on numbers and slices, and for the check and the run a second one, with the steps as structs.
// Each returns the refusal's number, 0 for none, and writes eight words: the values that the call answers, or the refusal's place, and zeros.
#![tactic(auto, using(crate::proofs::Told::telling))]

ghost use Rattle.std.specs.Prelude.{◌≡◌, [], ◌∷◌, ◌/◌, length};
ghost use Rattle.chain.specs.Chain.{pairs};
ghost use Rattle.chain.specs.Written.{over};
ghost use Rattle.quote.specs.ByMethod.{ceiling_answer};
ghost use Rattle.compile.specs.Compile.{compile_answer, compile_steps, compile_outputs};
ghost use Rattle.layout.specs.Layout.{edition1};
ghost use Rattle.layout.specs.File.{extent_answer, write_answer, write_bytes, read_answer, read_steps, read_outputs};
ghost use Rattle.verify.specs.Verify.{verify_answer, verify_scratch};
ghost use Rattle.run.specs.Run.{run_answer, run_values, run_figures};
ghost use Rattle.pool.specs.Pool.{part, pool_answer, pool_steps, pool_outputs};
ghost use Rattle.packed.specs.Packed.{unpack_answer, unpack_amounts, pack_answer, pack_bytes};
ghost use Rattle.choose.specs.Choose.{choice};
ghost use Rattle.listing.specs.Listing.{listing};
ghost use Rattle.path.specs.Path.{lent, path_answer, path_leaves};
ghost use Rattle.tell.specs.Told.{number_of, words_of, choice_answer};

use chain::Step;

// The number of steps of the chain that a method makes of a sheet, and its ceiling.
#[unsafe(no_mangle)]
pub extern "C" fn spoutbasket_ceiling(
    p: usize,
    q: usize,
    amounts: &[u32],
    method: usize,
    k: usize,
    answer: &mut [u64; 8],
) -> u32
    ensures value { result ≡ number_of (ceiling_answer p q amounts.now method k) }
    ensures answer_after { answer.new ≡ words_of (ceiling_answer p q amounts.now method k) }
{
    let quoted = quote::ceiling(p, q, amounts, method, k);
    tell::tell(quoted, answer)
}

// A sheet compiled by the method of a number and its parameter.
#[unsafe(no_mangle)]
pub extern "C" fn spoutbasket_compile(
    p: usize,
    q: usize,
    amounts: &[u32],
    method: usize,
    k: usize,
    steps: &mut [u32],
    outputs: &mut [u32],
    answer: &mut [u64; 8],
) -> u32
    ensures value { result ≡ number_of (compile_answer p q amounts.now method k (length steps.old / 2) (length outputs.old)) }
    ensures answer_after { answer.new ≡ words_of (compile_answer p q amounts.now method k (length steps.old / 2)
        (length outputs.old)) }
    ensures steps_after { steps.new ≡ compile_steps p q amounts.now method k (length outputs.old) steps.old }
    ensures outputs_after { outputs.new ≡ compile_outputs p q amounts.now method k (length steps.old / 2) outputs.old }
{
    let compiled = compile::compile(p, q, amounts, method, k, steps, outputs);
    tell::tell(compiled, answer)
}

// The width of a file's numbers and its bytes, from the sizes of its chain.
#[unsafe(no_mangle)]
pub extern "C" fn spoutbasket_extent(p: usize, q: usize, n: usize, answer: &mut [u64; 8]) -> u32
    ensures value { result ≡ number_of (extent_answer edition1 p q n) }
    ensures answer_after { answer.new ≡ words_of (extent_answer edition1 p q n) }
{
    let measured = extent::extent(p, q, n);
    tell::tell(measured, answer)
}

// The file of a chain, written.
#[unsafe(no_mangle)]
pub extern "C" fn spoutbasket_write(
    p: usize,
    steps: &[u32],
    outputs: &[u32],
    bytes: &mut [u8],
    answer: &mut [u64; 8],
) -> u32
    ensures value { result ≡ number_of (write_answer edition1 p (pairs steps.now) outputs.now (length bytes.old)) }
    ensures answer_after { answer.new ≡ words_of (write_answer edition1 p (pairs steps.now) outputs.now (length bytes.old)) }
    ensures bytes_after { bytes.new ≡ write_bytes edition1 p (pairs steps.now) outputs.now bytes.old }
{
    let written = writing::write(p, steps, outputs, bytes);
    tell::tell(written, answer)
}

// The file of a chain, read.
#[unsafe(no_mangle)]
pub extern "C" fn spoutbasket_read(
    bytes: &[u8],
    steps: &mut [u32],
    outputs: &mut [u32],
    answer: &mut [u64; 8],
) -> u32
    ensures value { result ≡ number_of (read_answer edition1 bytes.now (length steps.old / 2) (length outputs.old)) }
    ensures answer_after { answer.new ≡ words_of (read_answer edition1 bytes.now (length steps.old / 2)
        (length outputs.old)) }
    ensures steps_after { steps.new ≡ read_steps edition1 bytes.now (length outputs.old) steps.old }
    ensures outputs_after { outputs.new ≡ read_outputs edition1 bytes.now (length steps.old / 2) outputs.old }
{
    let reading = reading::read(bytes, steps, outputs);
    tell::tell(reading, answer)
}

// The check of a chain against a sheet.
#[unsafe(no_mangle)]
pub extern "C" fn spoutbasket_verify(
    p: usize,
    steps: &[u32],
    outputs: &[u32],
    amounts: &[u32],
    scratch: &mut [u32],
    answer: &mut [u64; 8],
) -> u32
    ensures value { result ≡ number_of (verify_answer p (pairs steps.now) outputs.now amounts.now
        (length scratch.old)) }
    ensures answer_after { answer.new ≡ words_of (verify_answer p (pairs steps.now) outputs.now amounts.now
        (length scratch.old)) }
    ensures scratch_after { scratch.new ≡ verify_scratch p (pairs steps.now) outputs.now amounts.now scratch.old }
{
    let verified = checker::verify(p, steps, outputs, amounts, scratch);
    tell::tell(verified, answer)
}

// The check of a chain whose steps are lent as structs, each a pair of 32-bit numbers, against a sheet.
#[unsafe(no_mangle)]
pub extern "C" fn spoutbasket_verify_pairs(
    p: usize,
    steps: &[Step],
    outputs: &[u32],
    amounts: &[u32],
    scratch: &mut [u32],
    answer: &mut [u64; 8],
) -> u32
    ensures value { result ≡ number_of (verify_answer p steps.now outputs.now amounts.now (length scratch.old)) }
    ensures answer_after { answer.new ≡ words_of (verify_answer p steps.now outputs.now amounts.now
        (length scratch.old)) }
    ensures scratch_after { scratch.new ≡ verify_scratch p steps.now outputs.now amounts.now scratch.old }
{
    let verified = pairs::verify_pairs(p, steps, outputs, amounts, scratch);
    tell::tell(verified, answer)
}

// The run of a chain over residues.
#[unsafe(no_mangle)]
pub extern "C" fn spoutbasket_run(
    p: usize,
    steps: &[u32],
    outputs: &[u32],
    m: u32,
    bases: &[u32],
    values: &mut [u32],
    figures: &mut [u32],
    answer: &mut [u64; 8],
) -> u32
    ensures value { result ≡ number_of (run_answer p (pairs steps.now) outputs.now m bases.now
        (length values.old) (length figures.old)) }
    ensures answer_after { answer.new ≡ words_of (run_answer p (pairs steps.now) outputs.now m bases.now
        (length values.old) (length figures.old)) }
    ensures values_after { values.new ≡ run_values p (pairs steps.now) outputs.now m bases.now
        (length figures.old) values.old }
    ensures figures_after { figures.new ≡ run_figures p (pairs steps.now) outputs.now m bases.now
        (length values.old) figures.old }
{
    let ran = runner::run(p, steps, outputs, m, bases, values, figures);
    tell::tell(ran, answer)
}

// The run of a chain whose steps are lent as structs, each a pair of 32-bit numbers, over residues.
#[unsafe(no_mangle)]
pub extern "C" fn spoutbasket_run_pairs(
    p: usize,
    steps: &[Step],
    outputs: &[u32],
    m: u32,
    bases: &[u32],
    values: &mut [u32],
    figures: &mut [u32],
    answer: &mut [u64; 8],
) -> u32
    ensures value { result ≡ number_of (run_answer p steps.now outputs.now m bases.now (length values.old)
        (length figures.old)) }
    ensures answer_after { answer.new ≡ words_of (run_answer p steps.now outputs.now m bases.now
        (length values.old) (length figures.old)) }
    ensures values_after { values.new ≡ run_values p steps.now outputs.now m bases.now
        (length figures.old) values.old }
    ensures figures_after { figures.new ≡ run_figures p steps.now outputs.now m bases.now
        (length values.old) figures.old }
{
    let ran = pairs::run_pairs(p, steps, outputs, m, bases, values, figures);
    tell::tell(ran, answer)
}

// Two chains over the same columns pooled into one.
#[unsafe(no_mangle)]
pub extern "C" fn spoutbasket_pool(
    p1: usize,
    steps1: &[u32],
    outputs1: &[u32],
    p2: usize,
    steps2: &[u32],
    outputs2: &[u32],
    steps: &mut [u32],
    outputs: &mut [u32],
    answer: &mut [u64; 8],
) -> u32
    ensures value { result ≡ number_of (pool_answer (part p1 (pairs steps1.now) outputs1.now)
        (part p2 (pairs steps2.now) outputs2.now) (length steps.old / 2) (length outputs.old)) }
    ensures answer_after { answer.new ≡ words_of (pool_answer (part p1 (pairs steps1.now) outputs1.now)
        (part p2 (pairs steps2.now) outputs2.now) (length steps.old / 2) (length outputs.old)) }
    ensures steps_after { steps.new ≡ pool_steps (part p1 (pairs steps1.now) outputs1.now)
        (part p2 (pairs steps2.now) outputs2.now) (length outputs.old) steps.old }
    ensures outputs_after { outputs.new ≡ pool_outputs (part p1 (pairs steps1.now) outputs1.now)
        (part p2 (pairs steps2.now) outputs2.now) (length steps.old / 2) outputs.old }
{
    let pooled = pooler::pool(p1, steps1, outputs1, p2, steps2, outputs2, steps, outputs);
    tell::tell(pooled, answer)
}

// A sheet of packed fields, read.
#[unsafe(no_mangle)]
pub extern "C" fn spoutbasket_unpack(
    p: usize,
    q: usize,
    bytes: &[u8],
    amounts: &mut [u32],
    answer: &mut [u64; 8],
) -> u32
    ensures value { result ≡ number_of (unpack_answer p q bytes.now (length amounts.old)) }
    ensures answer_after { answer.new ≡ words_of (unpack_answer p q bytes.now (length amounts.old)) }
    ensures amounts_after { amounts.new ≡ unpack_amounts p q bytes.now amounts.old }
{
    let transferred = unpacking::unpack(p, q, bytes, amounts);
    tell::tell(transferred, answer)
}

// A sheet written as packed fields.
#[unsafe(no_mangle)]
pub extern "C" fn spoutbasket_pack(
    p: usize,
    q: usize,
    amounts: &[u32],
    bytes: &mut [u8],
    answer: &mut [u64; 8],
) -> u32
    ensures value { result ≡ number_of (pack_answer p q amounts.now (length bytes.old)) }
    ensures answer_after { answer.new ≡ words_of (pack_answer p q amounts.now (length bytes.old)) }
    ensures bytes_after { bytes.new ≡ pack_bytes p q amounts.now bytes.old }
{
    let transferred = packing::pack(p, q, amounts, bytes);
    tell::tell(transferred, answer)
}

// The choice between two files: which of them is handed back. The scratch slices are left free in content.
#[unsafe(no_mangle)]
pub extern "C" fn spoutbasket_choose(
    p: usize,
    q: usize,
    amounts: &[u32],
    a: &[u8],
    b: &[u8],
    steps: &mut [u32],
    outputs: &mut [u32],
    numbers: &mut [u32],
    answer: &mut [u64; 8],
) -> u32
    ensures value { result ≡ number_of (choice_answer (choice p q amounts.now a.now b.now (length steps.old / 2)
        (length outputs.old) (length numbers.old))) }
    ensures answer_after { answer.new ≡ words_of (choice_answer
        (choice p q amounts.now a.now b.now (length steps.old / 2) (length outputs.old)
        (length numbers.old))) }
{
    let chosen = choose::decide(p, q, amounts, a, b, steps, outputs, numbers);
    tell::tell(chosen, answer)
}

// The listing of a file, as text over the front of an array with room for every listing; the answer is its length.
#[unsafe(no_mangle)]
pub extern "C" fn spoutbasket_list(
    bytes: &[u8],
    text: &mut [u8; listing::MOST_TEXT],
    answer: &mut [u64; 8],
) -> u32
    ensures value { result ≡ 0 }
    ensures answer_after { answer.new ≡ length (listing bytes.now) ∷ 0 ∷ 0 ∷ 0 ∷ 0 ∷ 0 ∷ 0 ∷ 0 ∷ [] }
    ensures text_after { text.new ≡ over (listing bytes.now) text.old }
{
    let length = listing::list(bytes, text);
    tell::tell(Ok(length), answer)
}

// The whole path from a sheet to its figures: compile, write, read, check and run. The chain read stands in `received` and `results`.
#[unsafe(no_mangle)]
pub extern "C" fn spoutbasket_path(
    p: usize,
    q: usize,
    amounts: &[u32],
    method: usize,
    k: usize,
    m: u32,
    bases: &[u32],
    steps: &mut [u32],
    outputs: &mut [u32],
    bytes: &mut [u8],
    received: &mut [u32],
    results: &mut [u32],
    scratch: &mut [u32],
    values: &mut [u32],
    figures: &mut [u32],
    answer: &mut [u64; 8],
) -> u32
    ensures value { result ≡ number_of (path_answer p q amounts.now method k
        (lent steps.old outputs.old bytes.old received.old results.old scratch.old
        values.old figures.old) m bases.now) }
    ensures answer_after { answer.new ≡ words_of (path_answer p q amounts.now method k
        (lent steps.old outputs.old bytes.old received.old results.old scratch.old
        values.old figures.old) m bases.now) }
    ensures figures_after { lent steps.new outputs.new bytes.new received.new results.new
        scratch.new values.new figures.new ≡ path_leaves p q amounts.now method k
        (lent steps.old outputs.old bytes.old received.old results.old scratch.old
        values.old figures.old) m bases.now }
{
    let figured = path::sheet_to_figures(
        p, q, amounts, method, k, m, bases, steps, outputs, bytes, received, results, scratch,
        values, figures,
    );
    tell::tell(figured, answer)
}

ghost use Rattle.places.specs.Places.{number_told, words_told};
ghost use Rattle.text.specs.Text.{numbers_of};
ghost use Rattle.table.specs.Table.{table_of};
ghost use Rattle.phrases.specs.Phrases.{phrase_number, phrase_words, phrase_text};

// A text of numbers, read over the front of the lent ones. The words answer how many there are, or where and why it was turned down.
#[unsafe(no_mangle)]
pub extern "C" fn spoutbasket_numbers(
    text: &[u8],
    numbers: &mut [u32],
    answer: &mut [u64; 8],
) -> u32
    ensures value { result ≡ number_told (numbers_of text.now (length numbers.old)).answer }
    ensures answer_after { answer.new ≡ words_told (numbers_of text.now (length numbers.old)).answer }
    ensures numbers_after { numbers.new ≡ over (numbers_of text.now (length numbers.old)).numbers numbers.old }
{
    numbers::numbers(text, numbers, answer)
}

// A table of amounts, one payslip a line, read over the front of the lent ones. The words answer p and q, or where and why it was turned down.
#[unsafe(no_mangle)]
pub extern "C" fn spoutbasket_table(text: &[u8], amounts: &mut [u32], answer: &mut [u64; 8]) -> u32
    ensures value { result ≡ number_told (table_of text.now (length amounts.old)).answer }
    ensures answer_after { answer.new ≡ words_told (table_of text.now (length amounts.old)).answer }
    ensures amounts_after { amounts.new ≡ over (table_of text.now (length amounts.old)).numbers amounts.old }
{
    table::table(text, amounts, answer)
}

// The words for a refusal's number, over the front of a text; the answer is their length.
#[unsafe(no_mangle)]
pub extern "C" fn spoutbasket_phrase(number: u32, text: &mut [u8], answer: &mut [u64; 8]) -> u32
    ensures value { result ≡ phrase_number number (length text.old) }
    ensures answer_after { answer.new ≡ phrase_words number (length text.old) }
    ensures text_after { text.new ≡ phrase_text number text.old }
{
    phrases::phrase(number, text, answer)
}
