// Calls that write shares, a message or differences of a block.
use crate::block_words::block;
use test_calls::written;
use test_words::{BareFault, BareWords};

// Inlined, its quarter of a mebibyte would lie on the stack of every call.
#[inline(never)]
pub fn encode(rt: &impl Print, words: &mut BareWords) -> Result<(), BareFault> {
    let (record, lanes) = block(words)?;
    let message = words.bytes("message")?;
    written(rt, words, |out| {
        balanced::encode_block(&record, lanes, &message, out)
    })
}

pub fn recover(rt: &impl Print, words: &mut BareWords) -> Result<(), BareFault> {
    let (record, lanes) = block(words)?;
    let nodes = words.bytes("nodes")?;
    let shares = words.bytes("shares")?;
    written(rt, words, |out| {
        balanced::recover_block(&record, lanes, &nodes, &shares, out)
    })
}

pub fn rebuild(rt: &impl Print, words: &mut BareWords) -> Result<(), BareFault> {
    let (record, lanes) = block(words)?;
    let nodes = words.bytes("nodes")?;
    let shares = words.bytes("shares")?;
    let target = words.number("target")?;
    written(rt, words, |out| {
        balanced::rebuild_share(&record, lanes, &nodes, &shares, target, out)
    })
}

pub fn differences(rt: &impl Print, words: &mut BareWords) -> Result<(), BareFault> {
    let (record, lanes) = block(words)?;
    let symbol = words.number("symbol")?;
    let before = words.bytes("before")?;
    let after = words.bytes("after")?;
    written(rt, words, |out| {
        balanced::differences(&record, lanes, symbol, &before, &after, out)
    })
}
