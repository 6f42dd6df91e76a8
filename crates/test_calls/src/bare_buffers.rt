// Buffers that are lent to calls, with no memory of their own, and with the room that a word says; every place holds the mark.
use crate::done;
use arrayvec::ArrayVec;
use generator::Refusal;
use test_tools::{MARK, untouched};
use test_words::{BareFault, BareWords};

// The room is the next word's.
pub fn bare_buffer<T: Copy + Default>(
    words: &mut BareWords,
    mark: T,
) -> Result<ArrayVec<T, 64>, BareFault> {
    let room = words.room()?;
    let mut buffer = ArrayVec::new();
    for _ in 0..room {
        buffer.push(mark);
    }
    Ok(buffer)
}

// The room is the last word's.
pub fn bare_last_buffer<T: Copy + Default>(
    words: &mut BareWords,
    mark: T,
) -> Result<ArrayVec<T, 64>, BareFault> {
    let buffer = bare_buffer(words, mark)?;
    words.end()?;
    Ok(buffer)
}

// Lends the buffer of bytes of the last word to a call that writes it: what it holds afterwards, or what turned the call away.
pub fn written<F: FnOnce(&mut [u8]) -> Result<(), Refusal>>(
    rt: &impl Print,
    words: &mut BareWords,
    call: F,
) -> Result<(), BareFault>
    requires { F.IsAlwaysCallable call }
{
    let mut out = bare_last_buffer(words, MARK)?;
    let answer = call(&mut out);
    let kept = untouched(MARK, &out);
    done(rt, answer, &out, kept)
}
