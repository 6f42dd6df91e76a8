// Which update was it: the symbol and the amount that lead from one lane to another.
// What the call promises stands in specs/Promise.antt, what its answer means in specs/Finding.antt.
#![tactic(auto)]

ghost use Rattle.std.specs.Prelude.{◌≡◌};
ghost use Rattle.generator.specs.Answers.{numbered, outcome_of};
ghost use Rattle.refusals.specs.Accepted.{IsLane};
ghost use Rattle.find_update.specs.Finding.{finding_of};
ghost use Rattle.find_update.specs.Inner.Starts.{update_in};
ghost use Rattle.find_update.specs.Promise.{find_fault, FindPromise, FindSays};

use compare::LaneDifference;
use generator::{Code, Codec, Refusal};
use refusals::{lane_length_bad, symbols_bad};

mod compare;
mod rows;

// What was found: the lanes are equal, the symbol and the amount that was added to it, or no single update.
#[derive(Clone, Copy, Debug, PartialEq, Eq)]
pub enum Finding {
    Unchanged,
    Added { symbol: u32, amount: u32 },
    NoSingleUpdate,
}

impl LaneDifference<'_> {
    // The update that the difference is of, where it is not zero at some node.
    fn update(self) -> Finding
        ensures { result ≡ update_in self.entry.codec.code.header self.entry.symbols.now }
    {
        let Some(row) = self.row() else {
            return Finding::NoSingleUpdate;
        };
        let amount = self.amount(row);
        if self.is_multiple(row, amount) {
            Finding::Added {
                symbol: row as u32,
                amount,
            }
        } else {
            Finding::NoSingleUpdate
        }
    }
}

// The update that leads from one lane to another.
fn find(code: Code, before: &[u16], after: &[u16]) -> Finding
    requires { IsLane code.header before.now × IsLane code.header after.now }
    ensures { result ≡ finding_of code.header before.now after.now }
{
    if before == after {
        return Finding::Unchanged;
    }
    let n = code.header.n as usize;
    let tables = field::constant_tables();
    let symbols = compare::difference(code, before, after);
    let plan = plan::plan_of(code);
    let difference = LaneDifference {
        codec: Codec::new(code, &tables),
        plan: &plan,
        symbols: &symbols[..n],
    };
    difference.update()
}

// Numbers 8 and 11.
#[tactic(auto, using(generator::proofs::Answered::tests), unfolding(crate::specs::Promise::find_fault))]
fn find_fault(code: Code, before: &[u8], after: &[u8]) -> Result<(), Refusal>
    ensures { numbered result ≡ outcome_of (find_fault code.header before.now after.now) }
{
    let h = code.header;
    Refusal::Length.when(lane_length_bad(h, before.len()))?;
    Refusal::Length.when(lane_length_bad(h, after.len()))?;
    Refusal::Symbol.when(symbols_bad(h, before))?;
    Refusal::Symbol.when(symbols_bad(h, after))
}

// Finds over a code.
#[tactic(auto, using(generator::proofs::Answered::tests, refusals::proofs::LaneSymbols::few_bytes, refusals::proofs::LaneSymbols::lane_read, crate::proofs::Accepts::find_accepts, crate::proofs::Accepts::find_refuses))]
fn find_accepted(code: Code, before: &[u8], after: &[u8]) -> Result<Finding, Refusal>
    ensures { FindPromise before.now after.now (numbered result) code.header (find_fault code.header before.now after.now) }
{
    find_fault(code, before, after)?;
    let n = code.header.n as usize;
    let w = symbols::width_of(code.header);
    let us = w.read_symbols(before);
    let vs = w.read_symbols(after);
    Ok(find(code, &us[..n], &vs[..n]))
}

// The symbol and the amount that lead from one lane to another, or that the two are equal, or that no single update does.
pub fn find_update(rec: &[u8], before: &[u8], after: &[u8]) -> Result<Finding, Refusal>
    ensures { FindSays rec.now before.now after.now (numbered result) }
{
    let code = records::read_record(rec)?;
    find_accepted(code, before, after)
}
