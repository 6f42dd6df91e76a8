// What turns a call away, the lowest of numbers 7 to 17 first; else the target of the repair.
ghost use Rattle.std.specs.Prelude.{◌≡◌, ◌-◌, ◌*◌, ◌≤◌, length};
ghost use Rattle.generator.specs.Answers.{answer_of};
ghost use Rattle.generator.specs.Inner.Answers.{numbered_by};
ghost use Rattle.traces.specs.Repairs.{bits};
ghost use Rattle.repair.specs.Packing.{packed_size};
ghost use Rattle.repair.specs.Promise.{target_fault, repair_bits_fault, repair_share_fault};
ghost use Rattle.repair.specs.Asked.{asked};

use crate::{Repair, packing};
use generator::{Code, Refusal};
use refusals::{buffer_bad, lanes_bad, length_bad, nodes_bad, number_bad, twice_bad};
use repair_tables::{Bits, Target};

// How many nodes send where no number is met.
pub fn senders(code: Code, missing: &[u8]) -> usize
    ensures { result ≡ code.header.n - 1 - length missing.now }
{
    let n = code.header.n as usize;
    n.saturating_sub(1).saturating_sub(missing.len())
}

impl<'t, 'm> Repair<'t, 'm> {
    // A target and the nodes that are missing beside it.
    #[tactic(auto, using(generator::proofs::Answered::giving_tests), unfolding(crate::specs::Promise::target_fault))]
    fn judge_target(self) -> Result<Target<'t, 'm>, Refusal>
        ensures { let h = self.entry.codec.code.header in let missing = self.entry.missing.now in numbered_by asked result ≡ answer_of (target_fault h self.entry.target missing) (h, (self.entry.target, missing)) }
    {
        let h = self.codec.code.header;
        Refusal::Range.when(number_bad(h.n as usize, self.target as usize))?;
        Refusal::Range.when(nodes_bad(h, self.missing))?;
        Refusal::Range.when(repair_tables::is_in(self.target, self.missing))?;
        Refusal::Twice.when(twice_bad(self.missing))?;
        Target::new(self.codec, self.target, self.missing).ok_or(Refusal::Traces)
    }

    // How many bytes a node sends; none where there is no repair by traces.
    fn sent_size(self) -> usize
        ensures size { result ≡ packed_size (bits self.entry.codec.code.header (length self.entry.missing.now)) self.entry.lanes }
        ensures fits { result ≤ 4 * 536870912 }
    {
        Bits::new(self.codec.code, self.missing.len()).map_or(
            0,
            |b| packing::packed_size(b, self.lanes),
        )
    }

    // A node that sends; `share` and `size` are lengths.
    #[tactic(auto, using(generator::proofs::Answered::giving_tests), unfolding(crate::specs::Promise::repair_bits_fault))]
    pub fn judge_bits(self, node: u32, share: usize, size: usize) -> Result<Target<'t, 'm>, Refusal>
        ensures { let h = self.entry.codec.code.header in let missing = self.entry.missing.now in numbered_by asked result ≡ answer_of (repair_bits_fault h self.entry.lanes node self.entry.target missing share size) (h, (self.entry.target, missing)) }
    {
        let h = self.codec.code.header;
        Refusal::Lanes.when(lanes_bad(self.lanes))?;
        Refusal::Length.when(buffer_bad(h, 1, self.lanes, share))?;
        Refusal::Length.when(length_bad(self.sent_size(), size))?;
        Refusal::Range.when(number_bad(h.n as usize, node as usize))?;
        Refusal::Range.when(!repair_tables::sends(self.target, self.missing, node))?;
        self.judge_target()
    }

    // The target; `rows` and `size` are lengths.
    #[tactic(auto, using(generator::proofs::Answered::giving_tests), unfolding(crate::specs::Promise::repair_share_fault))]
    pub fn judge_share(self, rows: usize, size: usize) -> Result<Target<'t, 'm>, Refusal>
        ensures { let h = self.entry.codec.code.header in let missing = self.entry.missing.now in numbered_by asked result ≡ answer_of (repair_share_fault h self.entry.lanes self.entry.target missing rows size) (h, (self.entry.target, missing)) }
    {
        let h = self.codec.code.header;
        Refusal::Lanes.when(lanes_bad(self.lanes))?;
        let count = senders(self.codec.code, self.missing);
        Refusal::Length.when(length_bad(count * self.sent_size(), rows))?;
        Refusal::Length.when(buffer_bad(h, 1, self.lanes, size))?;
        self.judge_target()
    }
}
