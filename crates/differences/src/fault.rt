// The first refusal that a call meets. `size` is the length of a written buffer.
ghost use Rattle.std.specs.Prelude.{◌≡◌};
ghost use Rattle.generator.specs.Answers.{numbered, outcome_of};
ghost use Rattle.differences.specs.Promise.{differences_fault, add_fault};

use generator::{Code, Refusal};
use refusals::{buffer_bad, lanes_bad, number_bad, symbols_bad};

#[tactic(auto, using(generator::proofs::Answered::tests), unfolding(crate::specs::Promise::differences_fault))]
pub fn differences_fault(
    code: Code,
    lanes: usize,
    symbol: usize,
    old: &[u8],
    new: &[u8],
    size: usize,
) -> Result<(), Refusal>
    ensures { numbered result ≡ outcome_of (differences_fault code.header lanes symbol old.now new.now size) }
{
    let h = code.header;
    Refusal::Lanes.when(lanes_bad(lanes))?;
    Refusal::Length.when(buffer_bad(h, 1, lanes, old.len()))?;
    Refusal::Length.when(buffer_bad(h, 1, lanes, new.len()))?;
    Refusal::Length.when(buffer_bad(h, h.n, lanes, size))?;
    Refusal::Range.when(number_bad(h.k as usize, symbol))?;
    Refusal::Symbol.when(symbols_bad(h, old))?;
    Refusal::Symbol.when(symbols_bad(h, new))
}

#[tactic(auto, using(generator::proofs::Answered::tests), unfolding(crate::specs::Promise::add_fault))]
pub fn add_fault(code: Code, lanes: usize, difference: &[u8], share: &[u8]) -> Result<(), Refusal>
    ensures { numbered result ≡ outcome_of (add_fault code.header lanes difference.now share.now) }
{
    let h = code.header;
    Refusal::Lanes.when(lanes_bad(lanes))?;
    Refusal::Length.when(buffer_bad(h, 1, lanes, difference.len()))?;
    Refusal::Length.when(buffer_bad(h, 1, lanes, share.len()))?;
    Refusal::Symbol.when(symbols_bad(h, difference))?;
    Refusal::Symbol.when(symbols_bad(h, share))
}
