// Words with memory for their lists. Nothing is asserted: so a test ends as any program that writes.
use crate::{Fault, Words};

// Whether all words of a line are these.
fn read(mut words: Words) -> Result<bool, Fault> {
    let name = words.name();
    let record = words.record()?;
    let bytes = words.bytes("before")?;
    let node = words.number("node")?;
    let room = words.room()?;
    words.end()?;
    let lists = record.as_slice() == [1, 7].as_slice() && bytes.as_slice() == [3].as_slice();
    let same = name == "find" && lists && node == 5 && room == 4;
    Ok(same)
}

#[test]
fn words_are_read_into_the_memory_that_they_lend(rt: HostRuntime) -> Result<(), Fault> {
    let words = Words::new(rt.alloc(), "find 1 7 before 3 node 5 room 4");
    let again = Words::new(words.alloc(), "find 1 7 before 3 node 5 room 4");
    if read(words)? && read(again)? {
        return Ok(());
    }
    Err(Fault::UnknownWord)
}

// What is said where a number is asked for.
fn said(mut words: Words, word: &str) -> Result<String, Fault> {
    let text = match words.number(word) {
        Ok(number) => format!(in words.alloc(); "{number}")?,
        Err(fault) => format!(in words.alloc(); "{fault}")?,
    };
    Ok(text)
}

#[test]
fn a_fault_says_its_word_whole(rt: HostRuntime) -> Result<(), Fault> {
    let word = "a_word_of_more_than_sixteen_bytes";
    let missing = said(Words::new(rt.alloc(), "find"), word)?;
    let alone = said(Words::new(rt.alloc(), word), word)?;
    if missing.as_str() == "a_word_of_more_than_sixteen_bytes is missing"
        && alone.as_str() == "a_word_of_more_than_sixteen_bytes has no number"
    {
        return Ok(());
    }
    Err(Fault::UnknownWord)
}
