// Shares of a block put in another order: those that stand node after node lane after lane, or back.
use crate::block_words::block;
use balanced::Refusal;
use test_calls::written;
use test_words::{BareFault, BareWords};

pub fn arrange<F: FnOnce(&[u8], u32, &[u8], &mut [u8]) -> Result<(), Refusal>>(
    rt: &impl Print,
    words: &mut BareWords,
    call: F,
) -> Result<(), BareFault>
    requires { F.IsAlwaysCallable call }
{
    let (record, lanes) = block(words)?;
    let shares = words.bytes("shares")?;
    written(rt, words, |out| call(&record, lanes, &shares, out))
}
