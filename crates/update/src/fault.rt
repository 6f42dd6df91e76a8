// The first refusal that the call meets by what it is given. Whether its lane is stale is judged afterwards.
ghost use Rattle.std.specs.Prelude.{◌≡◌};
ghost use Rattle.generator.specs.Answers.{numbered, outcome_of};
ghost use Rattle.layout.specs.Layout.{share_layout};
ghost use Rattle.update.specs.Promise.{input_fault};

use crate::Update;
use generator::{Code, Refusal};
use refusals::{buffer_bad, lane_bad, lanes_bad, number_bad, symbol_bad};

impl Update {
    #[tactic(auto, using(generator::proofs::Answered::tests), unfolding(crate::specs::Promise::input_fault))]
    pub fn input_fault(self, code: Code, shares: &[u8]) -> Result<(), Refusal>
        ensures { numbered result ≡ outcome_of (input_fault share_layout code.header self.lanes self.which self.lane self.old self.new shares.now) }
    {
        let h = code.header;
        Refusal::Lanes.when(lanes_bad(self.lanes))?;
        Refusal::Length.when(buffer_bad(h, h.n, self.lanes, shares.len()))?;
        Refusal::Range.when(number_bad(h.k as usize, self.which))?;
        Refusal::Range.when(number_bad(self.lanes, self.lane))?;
        Refusal::Symbol.when(symbol_bad(h, self.old))?;
        Refusal::Symbol.when(symbol_bad(h, self.new))?;
        Refusal::Symbol.when(lane_bad(h, self.lanes, self.lane, shares))
    }
}
