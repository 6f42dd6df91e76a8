// Calls on single lanes.
use crate::{Refused, answered, bare_buffer, bare_last_buffer, turned_away};
use find_update::Finding;
use generator::Refusal;
use test_tools::{List, MARK, untouched};
use test_words::{BareFault, BareWords};

// The symbol and the amount, that there is none, that the lanes are equal, or what turned the call away.
fn finding(rt: &impl Print, answer: Result<Finding, Refusal>) -> Result<(), BareFault> {
    match answer {
        Ok(Finding::Unchanged) => answered(rt, "unchanged"),
        Ok(Finding::Added { symbol, amount }) => {
            answered(rt, format_args!("symbol {symbol} amount {amount}"))
        }
        Ok(Finding::NoSingleUpdate) => answered(rt, "no single update"),
        Err(refusal) => answered(rt, Refused(refusal)),
    }
}

pub fn find(rt: &impl Print, words: &mut BareWords) -> Result<(), BareFault> {
    let record = words.record()?;
    let before = words.bytes("before")?;
    let after = words.bytes("after")?;
    words.end()?;
    let answer = find_update::find_update(&record, &before, &after);
    finding(rt, answer)
}

// How many single changes there are and both lists, or what turned the call away and whether every byte of both is as it was.
fn mending(
    rt: &impl Print,
    answer: Result<u32, Refusal>,
    nodes: &[u8],
    symbols: &[u8],
) -> Result<(), BareFault> {
    match answer {
        Ok(count) => answered(
            rt,
            format_args!(
                "count {count} nodes{} symbols{}",
                List(nodes),
                List(symbols)
            ),
        ),
        Err(refusal) => {
            let kept = untouched(MARK, nodes) && untouched(MARK, symbols);
            turned_away(rt, refusal, kept)
        }
    }
}

// The lists are lent with room for so many nodes, and for so many bytes of symbols.
pub fn mends(rt: &impl Print, words: &mut BareWords) -> Result<(), BareFault> {
    let record = words.record()?;
    let lane = words.bytes("symbols")?;
    let mut nodes = bare_buffer(words, MARK)?;
    let mut symbols = bare_last_buffer(words, MARK)?;
    let answer = mends::single_mends(&record, &lane, &mut nodes, &mut symbols);
    mending(rt, answer, &nodes, &symbols)
}
