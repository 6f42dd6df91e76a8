// Repair by traces: a node sends b bits of each symbol of its share, and the target makes its own share of what the other nodes sent. Further nodes may be missing.
// What the three calls promise stands in specs/Promise.antt.
#![tactic(auto)]

ghost use Rattle.std.specs.Prelude.{◌≡◌, ◌-◌, ◌*◌, ◌≤◌, length};
ghost use Rattle.generator.specs.Answers.{numbered};
ghost use Rattle.repair_tables.specs.Inner.Bits.{bit_count};
ghost use Rattle.repair.specs.Packing.{packed_size};
ghost use Rattle.repair.specs.Sent.{repaired_share};
ghost use Rattle.repair.specs.Promise.{repair_bits_fault, repair_share_fault, repair_plan_fault, RepairBitsPromise, RepairSharePromise, RepairPlanPromise, RepairBitsSays, RepairShareSays, RepairPlanSays};

use generator::{Code, Codec, Refusal};
use packing::Digits;
use repair_tables::{Bits, Target};
use sums::Planes;

mod fault;
mod packing;
mod sums;

// The plan of a repair: how many bits of a symbol each node sends, and how many further nodes may be missing.
#[derive(Clone, Copy, Debug, PartialEq, Eq)]
pub struct RepairPlan {
    pub bits: u32,
    pub spare: u32,
}

// A repair in so many lanes of a code: its target, and the nodes that are missing beside it. Lanes are a `usize`, as the tests of refusals take
// them: with `lanes: u32` their bound would not be said, and each of the four tests in `judge_bits` and `judge_share` would cast them.
#[derive(Clone, Copy)]
struct Repair<'t, 'm> {
    codec: Codec<'t>,
    lanes: usize,
    target: u32,
    missing: &'m [u8],
    ghost counted: { lanes ≤ 4294967295 },
}

// The target's share from the planes of the nodes that send.
#[tactic(auto, using(crate::proofs::Digits::plane_covers))]
fn add_up(target: Target, rows: &[u8], out: &mut [u8])
    requires { let h = target.codec.code.header in (length out.old ≤ 4096) × (length rows.now ≡ (h.n - 1 - length target.missing.now) * packed_size (bit_count target.bits) (length out.old)) }
    ensures { let h = target.entry.codec.code.header in out.new ≡ repaired_share h (length out.old) target.entry.node target.entry.missing.now rows.now }
{
    let senders = fault::senders(target.codec.code, target.missing);
    let weights = target.weights();
    let total = senders * target.bits.count() as usize;
    let planes = Planes {
        weights: &weights[..total],
        size: packing::plane_size(out.len()),
        rows,
    };
    planes.combine(out);
}

impl Repair<'_, '_> {
    // Sends what a node has for the target.
    fn bits_accepted(self, node: u32, share: &[u8], out: &mut [u8]) -> Result<(), Refusal>
        ensures { RepairBitsPromise node self.entry.target self.entry.missing.now share.now out.old out.new (numbered result) self.entry.codec.code.header (repair_bits_fault self.entry.codec.code.header self.entry.lanes node self.entry.target self.entry.missing.now (length share.now) (length out.old)) }
    {
        let target = self.judge_bits(node, share.len(), out.len())?;
        let table = target.sent_digits(node);
        let digits = Digits {
            table: &table,
            share,
        };
        digits.pack(target.bits, out);
        Ok(())
    }

    // Repairs the target's share.
    fn share_accepted(self, rows: &[u8], out: &mut [u8]) -> Result<(), Refusal>
        ensures { RepairSharePromise self.entry.lanes self.entry.target self.entry.missing.now rows.now out.old out.new (numbered result) self.entry.codec.code.header (repair_share_fault self.entry.codec.code.header self.entry.lanes self.entry.target self.entry.missing.now (length rows.now) (length out.old)) }
    {
        let target = self.judge_share(rows.len(), out.len())?;
        add_up(target, rows, out);
        Ok(())
    }
}

// Writes what a node sends of its share to the target: b planes of a bit for each lane. `missing` lists the nodes that are missing beside the target. Or gives what turns the call away and writes nothing.
pub fn repair_bits(
    rec: &[u8],
    lanes: u32,
    node: u32,
    target: u32,
    missing: &[u8],
    share: &[u8],
    out: &mut [u8],
) -> Result<(), Refusal>
    ensures { RepairBitsSays rec.now lanes node target missing.now share.now out.old out.new (numbered result) }
{
    let code = records::read_record(rec)?;
    let tables = field::constant_tables();
    let codec = Codec::new(code, &tables);
    let repair = Repair {
        codec,
        lanes: lanes as usize,
        target,
        missing,
    };
    repair.bits_accepted(node, share, out)
}

// Writes the target's share from what the other nodes sent, in their order. `missing` lists the nodes that are missing beside the target. Or gives what turns the call away and writes nothing. Each call of the interface is a function of its own.
pub fn repair_share(
    rec: &[u8],
    lanes: u32,
    target: u32,
    missing: &[u8],
    rows: &[u8],
    out: &mut [u8],
) -> Result<(), Refusal>
    ensures { RepairShareSays rec.now lanes target missing.now rows.now out.old out.new (numbered result) }
{
    let code = records::read_record(rec)?;
    let tables = field::constant_tables();
    let codec = Codec::new(code, &tables);
    let repair = Repair {
        codec,
        lanes: lanes as usize,
        target,
        missing,
    };
    repair.share_accepted(rows, out)
}

// Plans over a code.
fn plan_accepted(code: Code, missing: usize) -> Result<RepairPlan, Refusal>
    ensures { RepairPlanPromise missing (numbered result) code.header (repair_plan_fault code.header missing) }
{
    let b = Bits::new(code, missing).ok_or(Refusal::Traces)?;
    let bits = b.count();
    let spare = b.spare(code, missing);
    Ok(RepairPlan { bits, spare })
}

// Gives how many bits of a symbol each node sends with so many nodes missing beside the target, and how many further ones may be missing.
pub fn repair_plan(rec: &[u8], missing: u32) -> Result<RepairPlan, Refusal>
    ensures { RepairPlanSays rec.now missing (numbered result) }
{
    let code = records::read_record(rec)?;
    plan_accepted(code, missing as usize)
}
