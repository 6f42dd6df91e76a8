// The first refusal that the call meets. `size` is the length of a written buffer.
ghost use Rattle.std.specs.Prelude.{◌≡◌};
ghost use Rattle.generator.specs.Answers.{numbered, outcome_of};
ghost use Rattle.encode.specs.Promise.{encode_fault};

use generator::{Code, Refusal};
use refusals::{buffer_bad, lanes_bad, symbols_bad};

#[tactic(auto, using(generator::proofs::Answered::tests), unfolding(crate::specs::Promise::encode_fault))]
pub fn encode_fault(code: Code, lanes: usize, message: &[u8], size: usize) -> Result<(), Refusal>
    ensures { numbered result ≡ outcome_of (encode_fault code.header lanes size message.now) }
{
    let h = code.header;
    Refusal::Lanes.when(lanes_bad(lanes))?;
    Refusal::Length.when(buffer_bad(h, h.k, lanes, message.len()))?;
    Refusal::Length.when(buffer_bad(h, h.n, lanes, size))?;
    Refusal::Symbol.when(symbols_bad(h, message))
}
