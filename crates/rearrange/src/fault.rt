// What turns the call away, the lowest of numbers 7 and 8 first.
ghost use Rattle.std.specs.Prelude.{◌≡◌};
ghost use Rattle.generator.specs.Answers.{numbered, outcome_of};
ghost use Rattle.rearrange.specs.Promise.{rearrange_fault};

use generator::{Code, Refusal};
use refusals::{buffer_bad, lanes_bad};

// So many rows are moved; `source` is the length of the buffer that is read, `size` of the one that is written.
#[tactic(auto, using(generator::proofs::Answered::tests), unfolding(crate::specs::Promise::rearrange_fault))]
pub fn rearrange_fault(
    code: Code,
    rows: u8,
    lanes: usize,
    source: usize,
    size: usize,
) -> Result<(), Refusal>
    ensures { numbered result ≡ outcome_of (rearrange_fault code.header rows lanes source size) }
{
    let h = code.header;
    Refusal::Lanes.when(lanes_bad(lanes))?;
    Refusal::Length.when(buffer_bad(h, rows, lanes, source))?;
    Refusal::Length.when(buffer_bad(h, rows, lanes, size))
}
