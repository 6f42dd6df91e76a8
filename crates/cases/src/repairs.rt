// Calls of a repair by traces.
use crate::block_words::block;
use balanced::{Refusal, RepairPlan};
use test_calls::{Refused, answered, written};
use test_words::{BareFault, BareWords};

// What a node sends.
pub fn bits(rt: &impl Print, words: &mut BareWords) -> Result<(), BareFault> {
    let (record, lanes) = block(words)?;
    let node = words.number("node")?;
    let target = words.number("target")?;
    let missing = words.bytes("missing")?;
    let share = words.bytes("share")?;
    written(rt, words, |out| {
        balanced::repair_bits(&record, lanes, node, target, &missing, &share, out)
    })
}

// The target's share.
pub fn share(rt: &impl Print, words: &mut BareWords) -> Result<(), BareFault> {
    let (record, lanes) = block(words)?;
    let target = words.number("target")?;
    let missing = words.bytes("missing")?;
    let rows = words.bytes("rows")?;
    written(rt, words, |out| {
        balanced::repair_share(&record, lanes, target, &missing, &rows, out)
    })
}

// How many bits each node sends and how many further nodes may be missing, or what turned the call away.
fn planned(rt: &impl Print, answer: Result<RepairPlan, Refusal>) -> Result<(), BareFault> {
    match answer {
        Ok(RepairPlan { bits, spare }) => answered(rt, format_args!("bits {bits} spare {spare}")),
        Err(refusal) => answered(rt, Refused(refusal)),
    }
}

pub fn plan(rt: &impl Print, words: &mut BareWords) -> Result<(), BareFault> {
    let record = words.record()?;
    let count = words.number("count")?;
    words.end()?;
    planned(rt, balanced::repair_plan(&record, count))
}
