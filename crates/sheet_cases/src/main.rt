// Reads records in words, one a line ("record 1 7 3 6 4"), and writes each line with the record's sheet and comparison, or with what makes
// it no record. An empty line or a comment is written as it is.
#![tactic(auto)]

use arrayvec::ArrayVec;
use compare_text::comparison;
use input::print_text;
use sheet_text::sheet;
use std::io;
use test_tools::bare_not_read;
use test_words::{BareFault, BareWords, is_comment};

// The record of a line.
fn read(line: &[u8]) -> Result<ArrayVec<u8, 64>, BareFault> {
    let mut words = BareWords::new(line);
    if words.name() != "record" {
        return Err(BareFault::UnknownCall);
    }
    let record = words.record()?;
    words.end()?;
    Ok(record)
}

// The sheet and the comparison of the record of a line.
fn answer_record(rt: &impl Print, line: &[u8]) -> io::Result<()> {
    match read(line) {
        Ok(record) => {
            rt.write_all(b"\n")?;
            print_text(rt, &record, &mut sheet_text::page(), sheet)?;
            print_text(rt, &record, &mut compare_text::page(), comparison)
        }
        Err(fault) => {
            bare_not_read(rt, "record", fault)?;
            rt.write_all(b"\n")
        }
    }
}

// `answer` and `answers` stand in cases too, where a roster goes from line to line and the line feed stands elsewhere: one loop for both
// programs would take what it keeps and what it asks as parameters.
fn answer(rt: &impl Print, line: &[u8]) -> io::Result<()> {
    rt.write_all(line)?;
    if is_comment(line) {
        return rt.write_all(b"\n");
    }
    answer_record(rt, line)
}

fn answers(rt: &impl Print, input: &[u8]) -> io::Result<()> {
    for line in input.split_inclusive(|b| *b == b'\n') {
        answer(rt, line.strip_suffix(b"\n").unwrap_or(line))?;
    }
    Ok(())
}

// All records are read before the first answer is written.
fn main(rt: HostRuntime) -> io::Result<()> {
    let mut input = [0; 4096];
    let size = input::read_full(&rt, &mut input)?;
    answers(&rt, &input[..size])
}
