// The interface for C: each call of the store under a plain name. A call returns 0 or the number that turned it away, and hands its other values over through what it is lent.
#![tactic(auto)]

ghost use Rattle.std.specs.Prelude.{◌≡◌};
ghost use Rattle.std.specs.Result.{result_unwrap_or};
ghost use Rattle.generator.specs.Answers.{numbered, fault_in};
ghost use Rattle.balanced_c.specs.Calls.{plan_room_bad, PlanGives, EncodeGives, UpdateGives, RecoverGives, RebuildGives, BelongsGives, WeightsGive};

mod bytes_carried;
mod changes;
mod correction;
mod one_lane;
mod rearranging;
mod repairs;
mod rosters;
mod version;

pub use bytes_carried::{
    balanced_carried_len, balanced_carry_change, balanced_carry_in, balanced_carry_out,
    balanced_choose,
};
pub use changes::{balanced_add_share, balanced_differences, balanced_update_lanes};
pub use correction::{balanced_correct, balanced_correct_listed};
use generator::Refusal;
pub use one_lane::{balanced_find_update, balanced_mends};
pub use rearranging::{
    balanced_listed_to_lanes, balanced_listed_to_nodes, balanced_to_lanes, balanced_to_nodes,
};
pub use repairs::{balanced_repair_bits, balanced_repair_plan, balanced_repair_share};
pub use rosters::{
    balanced_roster_job, balanced_roster_leave, balanced_roster_lowest, balanced_roster_rejoin,
    balanced_roster_start,
};
pub use version::balanced_version;

// The number that an answer stands for, 0 where the call was accepted. No `From`: neither `Result` nor `u8` is a type of this crate.
fn number_of(answer: Result<(), Refusal>) -> u8
    ensures { result ≡ fault_in (numbered answer) }
{
    match answer {
        Ok(()) => 0,
        Err(refusal) => u8::from(refusal),
    }
}

// The same for an answer with a value, which is handed over; beside a number the place holds what it held.
fn hand_over(answer: Result<u32, Refusal>, place: &mut u32) -> u8
    ensures { (result ≡ fault_in (numbered answer)) × (place.new ≡ result_unwrap_or (numbered answer) place.old) }
{
    match answer {
        Ok(value) => {
            *place = value;
            0
        }
        Err(refusal) => u8::from(refusal),
    }
}

// Number 8 of the plan: a buffer for one of its parts has another length than stated.
fn room_bad(numbers: usize, shifts: usize, firsts: usize, base: usize) -> bool
    ensures { result ≡ plan_room_bad numbers shifts firsts base }
{
    numbers != 5 || shifts != 255 || firsts != 255 || base != 255
}

// Writes the parts of a plan where the record gives one and there is room for each.
#[tactic(auto, using(generator::proofs::Answered::tests, crate::proofs::Plans::lengths, crate::proofs::Plans::room_refused))]
fn write_plan(
    rec: &[u8],
    numbers: &mut [u8],
    shifts: &mut [u8],
    firsts: &mut [u8],
    base: &mut [u16],
) -> Result<(), Refusal>
    ensures { PlanGives rec.now numbers.old shifts.old firsts.old base.old numbers.new shifts.new firsts.new base.new (fault_in (numbered result)) }
{
    let plan = balanced::build_plan(rec)?;
    let bad = room_bad(numbers.len(), shifts.len(), firsts.len(), base.len());
    Refusal::Length.when(bad)?;
    numbers.copy_from_slice(&[plan.n, plan.k, plan.d, plan.low, plan.high]);
    shifts.copy_from_slice(&plan.shifts);
    firsts.copy_from_slice(&plan.firsts);
    base.copy_from_slice(&plan.base);
    Ok(())
}

// The plan of a record: n, k, d, k·d / n rounded down and up; the shifts; the first nodes; the base word.
pub fn balanced_plan(
    rec: &[u8],
    numbers: &mut [u8],
    shifts: &mut [u8],
    firsts: &mut [u8],
    base: &mut [u16],
) -> u8
    ensures { PlanGives rec.now numbers.old shifts.old firsts.old base.old numbers.new shifts.new firsts.new base.new result }
{
    number_of(write_plan(rec, numbers, shifts, firsts, base))
}

// Encode: the shares of all nodes.
pub fn balanced_encode(rec: &[u8], lanes: u32, message: &[u8], shares: &mut [u8]) -> u8
    ensures { EncodeGives rec.now lanes message.now shares.old shares.new result }
{
    number_of(balanced::encode_block(rec, lanes, message, shares))
}

// Update: one symbol of one lane; `altered` receives how many nodes were altered.
pub fn balanced_update(
    rec: &[u8],
    lanes: u32,
    symbol: u32,
    lane: u32,
    old: u32,
    new: u32,
    shares: &mut [u8],
    altered: &mut u32,
) -> u8
    ensures { UpdateGives rec.now lanes symbol lane old new shares.old altered.old shares.new altered.new result }
{
    let answer = balanced::update_lane(rec, lanes, symbol, lane, old, new, shares);
    hand_over(answer, altered)
}

// Recover: the message, from the shares of the listed nodes.
pub fn balanced_recover(
    rec: &[u8],
    lanes: u32,
    nodes: &[u8],
    shares: &[u8],
    message: &mut [u8],
) -> u8
    ensures { RecoverGives rec.now lanes nodes.now shares.now message.old message.new result }
{
    number_of(balanced::recover_block(rec, lanes, nodes, shares, message))
}

// Rebuild: the target's share, from the shares of the listed nodes.
pub fn balanced_rebuild(
    rec: &[u8],
    lanes: u32,
    nodes: &[u8],
    shares: &[u8],
    target: u32,
    share: &mut [u8],
) -> u8
    ensures { RebuildGives rec.now lanes nodes.now shares.now target share.old share.new result }
{
    number_of(balanced::rebuild_share(rec, lanes, nodes, shares, target, share))
}

// Belongs: `first_wrong` receives the smallest lane that is no word of the code, or the number of lanes.
pub fn balanced_belongs(rec: &[u8], lanes: u32, shares: &[u8], first_wrong: &mut u32) -> u8
    ensures { BelongsGives rec.now lanes shares.now first_wrong.old first_wrong.new result }
{
    let answer = balanced::block_belongs(rec, lanes, shares);
    hand_over(answer.map(|wrong| wrong.unwrap_or(lanes)), first_wrong)
}

// How many messages have a word with w nodes that are not zero, w from 0 to n.
pub fn balanced_weights(rec: &[u8], counts: &mut [u32]) -> u8
    ensures { WeightsGive rec.now counts.old counts.new result }
{
    number_of(balanced::weight_counts(rec, counts))
}
