// The calls of a repair by traces.
ghost use Rattle.balanced_c.specs.Repairs.{RepairPlanGives, RepairBitsGives, RepairShareGives};

use crate::number_of;

// The plan of a repair with so many nodes missing beside the target: `bits` receives how many bits of a symbol each node sends, `spare` how many further nodes may be missing.
pub fn balanced_repair_plan(rec: &[u8], missing: u32, bits: &mut u32, spare: &mut u32) -> u8
    ensures { RepairPlanGives rec.now missing bits.old spare.old bits.new spare.new result }
{
    match balanced::repair_plan(rec, missing) {
        Ok(plan) => {
            *bits = plan.bits;
            *spare = plan.spare;
            0
        }
        Err(refusal) => u8::from(refusal),
    }
}

// What a node sends of its share to the target.
pub fn balanced_repair_bits(
    rec: &[u8],
    lanes: u32,
    node: u32,
    target: u32,
    missing: &[u8],
    share: &[u8],
    bits: &mut [u8],
) -> u8
    ensures { RepairBitsGives rec.now lanes node target missing.now share.now bits.old bits.new result }
{
    number_of(balanced::repair_bits(rec, lanes, node, target, missing, share, bits))
}

// The target's share, from what the other nodes sent.
pub fn balanced_repair_share(
    rec: &[u8],
    lanes: u32,
    target: u32,
    missing: &[u8],
    rows: &[u8],
    share: &mut [u8],
) -> u8
    ensures { RepairShareGives rec.now lanes target missing.now rows.now share.old share.new result }
{
    number_of(balanced::repair_share(rec, lanes, target, missing, rows, share))
}
