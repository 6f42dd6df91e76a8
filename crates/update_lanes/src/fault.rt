// The first refusal that the call meets by what it is given. Whether its lanes are stale is judged afterwards.
ghost use Rattle.std.specs.Prelude.{◌≡◌, true, ◌+◌, ◌*◌, ◌≤◌, length};
ghost use Rattle.generator.specs.Answers.{numbered, outcome_of};
ghost use Rattle.generator.specs.Records.{width};
ghost use Rattle.field.specs.Kinds.{usable};
ghost use Rattle.update_lanes.specs.Runs.{run_bad};
ghost use Rattle.update_lanes.specs.Promise.{run_input_fault};

use crate::run::Run;
use generator::{Code, Header, Refusal};
use refusals::{buffer_bad, lane_bad, lanes_bad, number_bad, symbols_bad};

// Some lane of the `count` from `first` on holds a number that is no symbol.
fn run_bad(h: Header, lanes: usize, first: usize, count: usize, shares: &[u8]) -> bool
    requires { (usable h.field ≡ true) × (first + count ≤ lanes) × (length shares.now ≡ h.n * lanes * width h) }
    ensures { result ≡ run_bad h lanes first count shares.now }
{
    for i in 0..count {
        if lane_bad(h, lanes, first + i, shares) {
            return true;
        }
    }
    false
}

impl Run<'_> {
    #[tactic(auto, using(generator::proofs::Answered::tests), unfolding(crate::specs::Promise::run_input_fault))]
    pub fn input_fault(self, code: Code, shares: &[u8]) -> Result<(), Refusal>
        ensures { numbered result ≡ outcome_of (run_input_fault code.header self.entry.lanes self.entry.which self.entry.first self.entry.old.now self.entry.new.now shares.now) }
    {
        let h = code.header;
        let count = self.count(h);
        let end = self.first as usize + count;
        Refusal::Lanes.when(lanes_bad(self.lanes))?;
        Refusal::Length.when(buffer_bad(h, h.n, self.lanes, shares.len()))?;
        Refusal::Length.when(buffer_bad(h, 1, count, self.old.len()))?;
        Refusal::Length.when(buffer_bad(h, 1, count, self.new.len()))?;
        Refusal::Range.when(number_bad(h.k as usize, self.which))?;
        Refusal::Range.when(self.lanes < end)?;
        Refusal::Symbol.when(symbols_bad(h, self.old))?;
        Refusal::Symbol.when(symbols_bad(h, self.new))?;
        let bad = run_bad(h, self.lanes, self.first as usize, count, shares);
        Refusal::Symbol.when(bad)
    }
}
