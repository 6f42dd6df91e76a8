// Belongs: whether every lane of a block is a word of the code.
// What the call promises stands in specs/Promise.antt.
#![tactic(auto)]

ghost use Rattle.layout.specs.Layout.{share_layout};
ghost use Rattle.generator.specs.Answers.{numbered};
ghost use Rattle.belongs.specs.Promise.{belongs_fault, BelongsPromise, BelongsSays};

use generator::{Code, Refusal};
use wrong_lanes::Block;

mod fault;

pub use fault::belongs_fault;

// Tests a block over a code.
#[tactic(auto, using(lists::proofs::Tests::tests, generator::proofs::Answered::tests, crate::proofs::Accepts::belongs_accepts, crate::proofs::Accepts::belongs_refuses), unfolding(generator::specs::Answers::answer_of, blocks::specs::Bytes::wrong_lane))]
fn test_accepted(code: Code, lanes: usize, shares: &[u8]) -> Result<Option<u32>, Refusal>
    ensures { BelongsPromise share_layout lanes shares.now (numbered result) code.header (belongs_fault code.header lanes shares.now) }
{
    belongs_fault(code.header, lanes, shares)?;
    let block = Block {
        code,
        lanes,
        shares,
    };
    Ok(block.first_wrong().map(|lane| lane as u32))
}

// The smallest lane that is no word of the code, if there is one.
pub fn block_belongs(rec: &[u8], lanes: u32, shares: &[u8]) -> Result<Option<u32>, Refusal>
    ensures { BelongsSays rec.now lanes shares.now (numbered result) }
{
    let code = records::read_record(rec)?;
    test_accepted(code, lanes as usize, shares)
}
