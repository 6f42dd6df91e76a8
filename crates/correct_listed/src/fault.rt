// What turns the call away, the lowest of numbers 7 to 11 first. `size` is the length of the written message, `counts` that of the list of counts.
ghost use Rattle.std.specs.Prelude.{◌≡◌};
ghost use Rattle.generator.specs.Answers.{numbered, outcome_of};
ghost use Rattle.correct_listed.specs.Promise.{count_bad, listed_fault};

use crate::Listed;
use generator::{Header, Refusal};
use refusals::{buffer_bad, lanes_bad, length_bad, nodes_bad, shares_bad, twice_bad};

// Number 8: fewer than k nodes, or more than n.
#[tactic(auto, unfolding(crate::specs::Promise::count_bad))]
fn count_bad(h: Header, count: usize) -> bool
    ensures { result ≡ count_bad h count }
{
    count < h.k as usize || (h.n as usize) < count
}

impl Listed<'_> {
    #[tactic(auto, using(generator::proofs::Answered::tests), unfolding(crate::specs::Promise::listed_fault, refusals::specs::Faults::list_fault))]
    pub fn fault(self, size: usize, counts: usize) -> Result<(), Refusal>
        ensures { let v = self.entry in numbered result ≡ outcome_of (listed_fault v.code.header v.lanes v.nodes.now v.shares.now size counts) }
    {
        let h = self.code.header;
        Refusal::Lanes.when(lanes_bad(self.lanes))?;
        Refusal::Length.when(count_bad(h, self.nodes.len()))?;
        let rows = self.nodes.len() as u8;
        Refusal::Length.when(buffer_bad(h, rows, self.lanes, self.shares.len()))?;
        Refusal::Length.when(buffer_bad(h, h.k, self.lanes, size))?;
        Refusal::Length.when(length_bad(self.nodes.len(), counts))?;
        Refusal::Range.when(nodes_bad(h, self.nodes))?;
        Refusal::Twice.when(twice_bad(self.nodes))?;
        Refusal::Symbol.when(shares_bad(h, rows, self.lanes, self.shares))
    }
}
