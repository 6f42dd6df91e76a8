// Reads calls in words, one a line ("encode 1 7 3 6 3 lanes 1 message 1 0 2 room 6"), and writes each line with the call's answer, or with
// what makes it no call. A list has at most 64 numbers. An empty line or a comment is written as it is.
#![tactic(auto)]

use balanced::Roster;
use calls::call;
use std::io;
use test_calls::rosters::nobody;
use test_tools::bare_not_read;
use test_words::is_comment;

mod arranging;
mod block_calls;
mod block_words;
mod bytes;
mod calls;
mod listed;
mod repairs;
mod shares;

// The most bytes of calls that are read.
const MOST: usize = 262_144;

fn answer_call(rt: &impl Print, line: &[u8], roster: &mut Roster) -> io::Result<()> {
    match call(rt, line, roster) {
        Ok(()) => Ok(()),
        Err(fault) => bare_not_read(rt, "call", fault),
    }
}

fn answer(rt: &impl Print, line: &[u8], roster: &mut Roster) -> io::Result<()> {
    rt.write_all(line)?;
    if !is_comment(line) {
        answer_call(rt, line, roster)?;
    }
    rt.write_all(b"\n")
}

// At first there is a roster with no node.
fn answers(rt: &impl Print, input: &[u8]) -> io::Result<()> {
    let mut roster = nobody();
    for line in input.split_inclusive(|b| *b == b'\n') {
        answer(rt, line.strip_suffix(b"\n").unwrap_or(line), &mut roster)?;
    }
    Ok(())
}

// All calls are read before the first answer is written.
fn main(rt: HostRuntime) -> io::Result<()> {
    let mut input = [0; MOST];
    let size = input::read_full(&rt, &mut input)?;
    answers(&rt, &input[..size])
}
