// Buffers in the memory of the words, of a mark that has no default.
use crate::{buffer, last_buffer};
use generator::Refusal;
use test_words::{Fault, Words};

#[test]
fn buffers_have_the_room_that_is_said(rt: HostRuntime) -> Result<(), Fault> {
    let mut words = Words::new(rt.alloc(), "mends room 3 room 0");
    words.name();
    let first = buffer(&mut words, Refusal::Length)?;
    let last = last_buffer(&mut words, Refusal::Length)?;
    if first.len() == 3 && last.is_empty() {
        return Ok(());
    }
    Err(Fault::UnknownWord)
}
