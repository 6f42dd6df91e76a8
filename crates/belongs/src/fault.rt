// What turns the call away, the lowest of numbers 7 to 11 first.
ghost use Rattle.std.specs.Prelude.{◌≡◌, true};
ghost use Rattle.field.specs.Kinds.{usable};
ghost use Rattle.generator.specs.Answers.{numbered, outcome_of};
ghost use Rattle.belongs.specs.Promise.{belongs_fault};

use generator::{Header, Refusal};
use refusals::{buffer_bad, lanes_bad, shares_bad};

// Belongs. A usable field is enough: a `Code` would ask more of callers than they are asked.
#[tactic(auto, using(generator::proofs::Answered::tests), unfolding(crate::specs::Promise::belongs_fault))]
pub fn belongs_fault(h: Header, lanes: usize, shares: &[u8]) -> Result<(), Refusal>
    requires { usable h.field ≡ true }
    ensures { numbered result ≡ outcome_of (belongs_fault h lanes shares.now) }
{
    Refusal::Lanes.when(lanes_bad(lanes))?;
    Refusal::Length.when(buffer_bad(h, h.n, lanes, shares.len()))?;
    Refusal::Symbol.when(shares_bad(h, h.n, lanes, shares))
}
