// Recover and Rebuild: the message, or what one node holds, from the shares of any k nodes.
// What both calls promise stands in specs/Promise.antt.
#![tactic(auto)]

ghost use Rattle.std.specs.Prelude.{◌≡◌, true, length};
ghost use Rattle.lists.specs.Numbers.{all_below};
ghost use Rattle.layout.specs.Layout.{share_layout};
ghost use Rattle.generator.specs.Answers.{numbered};
ghost use Rattle.recover.specs.Promise.{recover_fault, rebuild_fault, RecoverPromise, RebuildPromise, RecoverSays, RebuildSays};

use generator::{Code, Codec, Refusal};
use recover_matrix::Inverse;
use shares::Weighted;

mod fault;
mod one_row;
mod shares;

// Listed nodes and their shares of so many lanes, as they are handed in.
#[derive(Clone, Copy)]
struct Listed<'a> {
    code: Code,
    lanes: usize,
    nodes: &'a [u8],
    shares: &'a [u8],
    ghost bytes: { all_below 256 shares.now ≡ true },
}

impl Listed<'_> {
    // Recovers over a code.
    #[tactic(auto, using(layout::proofs::LaneParts::lanes_long, generator::proofs::Shifts::shifts_length, generator::proofs::Answered::tests, crate::proofs::Accepts::recover_accepts, crate::proofs::Accepts::recover_refuses, crate::proofs::Recovering::shifts_part, crate::proofs::Products::recovered_lanes), unfolding(generator::specs::Answers::answer_of))]
    fn recover_accepted(self, out: &mut [u8]) -> Result<(), Refusal>
        ensures { let v = self.entry in RecoverPromise share_layout v.lanes v.nodes.now v.shares.now out.old out.new (numbered result) v.code.header (recover_fault v.code.header v.lanes v.nodes.now v.shares.now (length out.old)) }
    {
        self.recover_fault(out.len())?;
        let h = self.code.header;
        let k = h.k as usize;
        let shifts = shifts::shifts_of(self.code.dimensions());
        let setup = node_weights::prepare(self.code, self.nodes, &shifts[..k]);
        let tables = field::constant_tables();
        let inverse = Inverse {
            codec: Codec::new(self.code, &tables),
            nodes: self.nodes,
            setup: &setup,
        };
        inverse.fill_message(self.lanes, self.shares, out);
        Ok(())
    }

    // Rebuilds over a code.
    #[tactic(auto, using(generator::proofs::Answered::tests, crate::proofs::Accepts::rebuild_accepts, crate::proofs::Accepts::rebuild_refuses, crate::proofs::Tiles::listed_bytes))]
    fn rebuild_accepted(self, target: u32, out: &mut [u8]) -> Result<(), Refusal>
        ensures { let v = self.entry in RebuildPromise share_layout v.lanes v.nodes.now v.shares.now target out.old out.new (numbered result) v.code.header (rebuild_fault v.code.header v.lanes v.nodes.now v.shares.now target (length out.old)) }
    {
        self.rebuild_fault(target as usize, out.len())?;
        let width = symbols::width_of(self.code.header);
        let weights = node_weights::rebuild_weights(self.code, self.nodes, target);
        let sums = Weighted {
            code: self.code,
            width,
            lanes: self.lanes,
            weights: &weights,
            shares: self.shares,
        };
        sums.fill(out);
        Ok(())
    }
}

// Writes the message of the listed nodes' shares, or gives what turns the call away and writes nothing.
#[tactic(auto, using(lists::proofs::Numbers::at_below))]
pub fn recover_block(
    rec: &[u8],
    lanes: u32,
    nodes: &[u8],
    shares: &[u8],
    out: &mut [u8],
) -> Result<(), Refusal>
    ensures { RecoverSays rec.now lanes nodes.now shares.now out.old out.new (numbered result) }
{
    let code = records::read_record(rec)?;
    let listed = Listed {
        code,
        lanes: lanes as usize,
        nodes,
        shares,
    };
    listed.recover_accepted(out)
}

// Writes the target's share from the listed nodes' shares, or gives what turns the call away and writes nothing. Each call of the interface
// is a function of its own.
#[tactic(auto, using(lists::proofs::Numbers::at_below))]
pub fn rebuild_share(
    rec: &[u8],
    lanes: u32,
    nodes: &[u8],
    shares: &[u8],
    target: u32,
    out: &mut [u8],
) -> Result<(), Refusal>
    ensures { RebuildSays rec.now lanes nodes.now shares.now target out.old out.new (numbered result) }
{
    let code = records::read_record(rec)?;
    let listed = Listed {
        code,
        lanes: lanes as usize,
        nodes,
        shares,
    };
    listed.rebuild_accepted(target, out)
}
