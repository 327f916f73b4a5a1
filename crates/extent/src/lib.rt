// How wide the numbers of a chain's file are and how long it is, from the chain's sizes alone.
#![tactic(auto)]

ghost use Rattle.std.specs.Prelude.{◌≡◌};
ghost use Rattle.chain.specs.Judgement.{answer_of};
ghost use Rattle.layout.specs.Layout.{edition1};
ghost use Rattle.layout.specs.File.{extent_answer};
ghost use Rattle.answers.specs.Answers.{size_in};

use answers::FileSize;
use refusal::Refusal;

// 1, 4; then W and the bytes of the file of any chain of p columns, q payslips and n steps.
pub fn extent(p: usize, q: usize, n: usize) -> Result<FileSize, Refusal>
    ensures { answer_of size_in result ≡ extent_answer edition1 p q n }
{
    let layout = layout::first_edition();
    shape::judge_shape(layout.limit, p, q, n)?;
    let extent = layout::extent_of(layout, p, q, n);
    Ok(FileSize {
        width: extent.width,
        bytes: extent.bytes,
    })
}
