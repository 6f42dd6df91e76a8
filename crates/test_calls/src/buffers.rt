// Buffers that are lent to calls, in the memory of the words, with the room that a word says; every place holds the mark.
ghost use Rattle.std.specs.Prelude.{◌≤◌, IfOk, vec_len};

use test_words::{Fault, Words};

// The room is the next word's.
pub fn buffer<T: Copy>(words: &mut Words, mark: T) -> Result<Vec<T>, Fault>
    ensures { IfOk result (λ v. vec_len v ≤ 64) }
{
    let room = words.room()?;
    Ok(vec![in words.alloc(); mark; room]?)
}

// The room is the last word's.
pub fn last_buffer<T: Copy>(words: &mut Words, mark: T) -> Result<Vec<T>, Fault>
    ensures { IfOk result (λ v. vec_len v ≤ 64) }
{
    let buffer = buffer(words, mark)?;
    words.end()?;
    Ok(buffer)
}
