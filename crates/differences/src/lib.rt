// Where one row of a message changes in every lane: what each node has to add to its share, and a node's share with that added.
// What both calls promise stands in specs/Promise.antt.
#![tactic(auto)]

ghost use Rattle.std.specs.Prelude.{length};
ghost use Rattle.generator.specs.Answers.{numbered};
ghost use Rattle.differences.specs.Promise.{differences_fault, add_fault, DifferencesPromise, AddPromise, DifferencesSays, AddSays};

use change::Change;
use generator::{Code, Refusal};
use plan::Generator;
use rows::Rows;

mod change;
mod fault;
mod nodes;
mod rows;

// Over the code of an accepted record. Everything is judged before the first byte is written.
#[tactic(auto, using(generator::proofs::Answered::tests, crate::proofs::Accepts::differences_accepts, crate::proofs::Accepts::differences_refuses, crate::proofs::Tiles::judged_row), unfolding(crate::specs::Differences::difference_bytes))]
fn differences_accepted(
    code: Code,
    lanes: usize,
    symbol: usize,
    old: &[u8],
    new: &[u8],
    out: &mut [u8],
) -> Result<(), Refusal>
    ensures { DifferencesPromise lanes symbol old.now new.now out.old out.new (numbered result) code.header (differences_fault code.header lanes symbol old.now new.now (length out.old)) }
{
    fault::differences_fault(code, lanes, symbol, old, new, out.len())?;
    let tables = field::constant_tables();
    let generator = Generator::new(code, &tables);
    let change = Change {
        generator: &generator,
        lanes,
        symbol,
        old,
        new,
    };
    change.fill_differences(out);
    Ok(())
}

// Writes what each node has to add, node after node, where the row of that symbol changes from old to new, or says what turns the call away and writes nothing.
pub fn differences(
    rec: &[u8],
    lanes: u32,
    symbol: u32,
    old: &[u8],
    new: &[u8],
    out: &mut [u8],
) -> Result<(), Refusal>
    ensures { DifferencesSays rec.now lanes symbol old.now new.now out.old out.new (numbered result) }
{
    let code = records::read_record(rec)?;
    differences_accepted(code, lanes as usize, symbol as usize, old, new, out)
}

// Adds over the code of an accepted record.
#[tactic(auto, using(generator::proofs::Answered::tests, crate::proofs::Accepts::add_accepts, crate::proofs::Accepts::add_refuses, crate::proofs::Tiles::judged_row), unfolding(crate::specs::Differences::added_bytes))]
fn add_accepted(
    code: Code,
    lanes: usize,
    difference: &[u8],
    share: &mut [u8],
) -> Result<(), Refusal>
    ensures { AddPromise lanes difference.now share.old share.new (numbered result) code.header (add_fault code.header lanes difference.now share.old) }
{
    fault::add_fault(code, lanes, difference, share)?;
    let width = symbols::width_of(code.header).bytes;
    Rows { code, width, lanes }.add(difference, share);
    Ok(())
}

// Adds a node's difference to its share, or says what turns the call away and alters nothing. It has the shape of `encode_block` and another
// promise: each call of the interface is a function of its own.
pub fn add_share(rec: &[u8], lanes: u32, difference: &[u8], share: &mut [u8]) -> Result<(), Refusal>
    ensures { AddSays rec.now lanes difference.now share.old share.new (numbered result) }
{
    let code = records::read_record(rec)?;
    add_accepted(code, lanes as usize, difference, share)
}
