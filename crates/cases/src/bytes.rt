// Calls that carry bytes in symbols, and the one that gives a record for n nodes of which k are needed.
use crate::shares::lend;
use balanced::Refusal;
use test_calls::{Refused, answered, bare_last_buffer, done, turned_away, written};
use test_tools::{List, MARK, untouched};
use test_words::{BareFault, BareWords};

// How many bytes of symbols carry so many, or what turned the call away.
fn length(rt: &impl Print, answer: Result<usize, Refusal>) -> Result<(), BareFault> {
    match answer {
        Ok(length) => answered(rt, format_args!("length {length}")),
        Err(refusal) => answered(rt, Refused(refusal)),
    }
}

pub fn carried_len(rt: &impl Print, words: &mut BareWords) -> Result<(), BareFault> {
    let record = words.record()?;
    let count = words.number("count")?;
    words.end()?;
    let answer = balanced::carried_len(&record, count as usize);
    length(rt, answer)
}

// Bytes written as symbols, or bytes that symbols carry: the list that is read has this word.
pub fn carry<F: FnOnce(&[u8], &[u8], &mut [u8]) -> Result<(), Refusal>>(
    rt: &impl Print,
    words: &mut BareWords,
    word: &'static str,
    call: F,
) -> Result<(), BareFault>
    requires { F.IsAlwaysCallable call }
{
    let record = words.record()?;
    let given = words.bytes(word)?;
    written(rt, words, |out| call(&record, &given, out))
}

// Bytes changed where symbols carry them.
pub fn carry_change(rt: &impl Print, words: &mut BareWords) -> Result<(), BareFault> {
    let record = words.record()?;
    let count = words.number("count")?;
    let at = words.number("at")?;
    let bytes = words.bytes("bytes")?;
    let symbols = words.bytes("symbols")?;
    words.end()?;
    let (answer, after, kept) = lend(symbols, |symbols| {
        balanced::carry_change(&record, count as usize, at as usize, &bytes, symbols)
    });
    done(rt, answer, &after, kept)
}

// How many bytes the record has, and the room with it in front; or what turned the call away and whether every byte is as it was.
fn chosen(rt: &impl Print, answer: Result<u8, Refusal>, out: &[u8]) -> Result<(), BareFault> {
    match answer {
        Ok(length) => answered(rt, format_args!("length {length} record{}", List(out))),
        Err(refusal) => turned_away(rt, refusal, untouched(MARK, out)),
    }
}

// The line has no record.
pub fn choose(rt: &impl Print, words: &mut BareWords) -> Result<(), BareFault> {
    let n = words.number("n")?;
    let k = words.number("k")?;
    let mut out = bare_last_buffer(words, MARK)?;
    let answer = balanced::choose_record(n, k, &mut out);
    chosen(rt, answer, &out)
}
