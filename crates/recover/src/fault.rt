// What turns a call away, the lowest of numbers 7 to 11 first. `size` is the length of the written buffer.
ghost use Rattle.std.specs.Prelude.{◌≡◌};
ghost use Rattle.generator.specs.Answers.{numbered, outcome_of};
ghost use Rattle.recover.specs.Promise.{recover_fault, rebuild_fault};

use crate::Listed;
use generator::Refusal;
use refusals::{buffer_bad, lanes_bad, length_bad, list_fault, number_bad};

impl Listed<'_> {
    // Recover.
    #[tactic(auto, using(generator::proofs::Answered::tests), unfolding(crate::specs::Promise::recover_fault))]
    pub fn recover_fault(self, size: usize) -> Result<(), Refusal>
        ensures { let v = self.entry in numbered result ≡ outcome_of (recover_fault v.code.header v.lanes v.nodes.now v.shares.now size) }
    {
        let h = self.code.header;
        Refusal::Lanes.when(lanes_bad(self.lanes))?;
        Refusal::Length.when(length_bad(h.k as usize, self.nodes.len()))?;
        Refusal::Length.when(buffer_bad(h, h.k, self.lanes, self.shares.len()))?;
        Refusal::Length.when(buffer_bad(h, h.k, self.lanes, size))?;
        list_fault(h, self.lanes, self.nodes, self.shares)
    }

    // Rebuild.
    #[tactic(auto, using(generator::proofs::Answered::tests), unfolding(crate::specs::Promise::rebuild_fault))]
    pub fn rebuild_fault(self, target: usize, size: usize) -> Result<(), Refusal>
        ensures { let v = self.entry in numbered result ≡ outcome_of (rebuild_fault v.code.header v.lanes v.nodes.now v.shares.now target size) }
    {
        let h = self.code.header;
        Refusal::Lanes.when(lanes_bad(self.lanes))?;
        Refusal::Length.when(length_bad(h.k as usize, self.nodes.len()))?;
        Refusal::Length.when(buffer_bad(h, h.k, self.lanes, self.shares.len()))?;
        Refusal::Length.when(buffer_bad(h, 1, self.lanes, size))?;
        Refusal::Range.when(number_bad(h.n as usize, target))?;
        list_fault(h, self.lanes, self.nodes, self.shares)
    }
}
