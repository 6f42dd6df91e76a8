// Calls that test shares, or change them in place.
use crate::block_words::block;
use arrayvec::ArrayVec;
use balanced::Refusal;
use test_calls::{Refused, answered, done, turned_away};
use test_tools::List;
use test_words::{BareFault, BareWords};

// The shares of the last word.
fn last_shares(words: &mut BareWords) -> Result<ArrayVec<u8, 64>, BareFault> {
    let shares = words.bytes("shares")?;
    words.end()?;
    Ok(shares)
}

// Lends the bytes of a line's last word, shares or symbols, to a call that may change them: its answer, the bytes afterwards, and whether they
// are as they were. A struct of these three would be made here and taken apart at once in its callers,
// `let Lent { answer, after, kept } = lend(before, call)`.
pub fn lend<T: Copy, F: FnOnce(&mut [u8]) -> Result<T, Refusal>>(
    before: ArrayVec<u8, 64>,
    call: F,
) -> (Result<T, Refusal>, ArrayVec<u8, 64>, bool)
    requires { F.IsAlwaysCallable call }
{
    let mut after = before.clone().unwrap();
    let answer = call(&mut after);
    let kept = after == before;
    (answer, after, kept)
}

// How many nodes or symbols a call altered and the shares afterwards, or what turned it away and whether the shares are as they were.
fn altered<F: FnOnce(&mut [u8]) -> Result<u32, Refusal>>(
    rt: &impl Print,
    words: &mut BareWords,
    call: F,
) -> Result<(), BareFault>
    requires { F.IsAlwaysCallable call }
{
    let (answer, after, kept) = lend(last_shares(words)?, call);
    match answer {
        Ok(count) => answered(rt, format_args!("altered {count} shares{}", List(&after))),
        Err(refusal) => turned_away(rt, refusal, kept),
    }
}

pub fn update(rt: &impl Print, words: &mut BareWords) -> Result<(), BareFault> {
    let (record, lanes) = block(words)?;
    let symbol = words.number("symbol")?;
    let lane = words.number("lane")?;
    let old = words.number("old")?;
    let new = words.number("new")?;
    altered(rt, words, |shares| {
        balanced::update_lane(&record, lanes, symbol, lane, old, new, shares)
    })
}

pub fn update_lanes(rt: &impl Print, words: &mut BareWords) -> Result<(), BareFault> {
    let (record, lanes) = block(words)?;
    let symbol = words.number("symbol")?;
    let first = words.number("lane")?;
    let old = words.bytes("before")?;
    let new = words.bytes("after")?;
    altered(rt, words, |shares| {
        balanced::update_lanes(&record, lanes, symbol, first, &old, &new, shares)
    })
}

pub fn correct(rt: &impl Print, words: &mut BareWords) -> Result<(), BareFault> {
    let (record, lanes) = block(words)?;
    altered(rt, words, |shares| {
        balanced::correct_block(&record, lanes, shares)
    })
}

// Yes, the smallest lane that is no word, or what turned the call away.
fn membership(rt: &impl Print, answer: Result<Option<u32>, Refusal>) -> Result<(), BareFault> {
    match answer {
        Ok(None) => answered(rt, "yes"),
        Ok(Some(lane)) => answered(rt, format_args!("no, lane {lane}")),
        Err(refusal) => answered(rt, Refused(refusal)),
    }
}

pub fn belongs(rt: &impl Print, words: &mut BareWords) -> Result<(), BareFault> {
    let (record, lanes) = block(words)?;
    let shares = last_shares(words)?;
    let answer = balanced::block_belongs(&record, lanes, &shares);
    membership(rt, answer)
}

// A node's difference added to its share.
pub fn add_share(rt: &impl Print, words: &mut BareWords) -> Result<(), BareFault> {
    let (record, lanes) = block(words)?;
    let difference = words.bytes("symbols")?;
    let (answer, after, kept) = lend(last_shares(words)?, |share| {
        balanced::add_share(&record, lanes, &difference, share)
    });
    done(rt, answer, &after, kept)
}
