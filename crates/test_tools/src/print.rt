// What is printed of a line that was not read.
use std::io;
use test_words::{BareFault, Fault};

// What is wrong with a line that is no call, or no record.
pub fn not_read(rt: &impl Print, what: &str, fault: Fault) -> io::Result<()> {
    match fault {
        Fault::NoMemory(error) => Err(error.into()),
        _ => print!(rt; ": no {what}, {fault}"),
    }
}

// The same of words that were read with no memory.
pub fn bare_not_read(rt: &impl Print, what: &str, fault: BareFault) -> io::Result<()> {
    match fault {
        BareFault::Unwritten(error) => Err(error),
        _ => print!(rt; ": no {what}, {fault}"),
    }
}
