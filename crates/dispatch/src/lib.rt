// A chain sent off: written, and read back from exactly the bytes counted.
#![tactic(auto)]

ghost use Rattle.chain.specs.Chain.{pairs};
ghost use Rattle.chain.specs.Judgement.{answer_of};
ghost use Rattle.answers.specs.Answers.{chain_in};
ghost use Rattle.dispatch.specs.Inner.{Dispatched};

use answers::ReadChain;
use refusal::Refusal;

pub fn dispatch(
    p: usize,
    steps: &[u32],
    outputs: &[u32],
    bytes: &mut [u8],
    received: &mut [u32],
    results: &mut [u32],
) -> Result<ReadChain, Refusal>
    ensures { Dispatched p (pairs steps.now) outputs.now
        bytes.old received.old results.old (answer_of chain_in result)
        bytes.new received.new results.new }
{
    let count = writing::write(p, steps, outputs, bytes)?;
    reading::read(&bytes[..count], received, results)
}
