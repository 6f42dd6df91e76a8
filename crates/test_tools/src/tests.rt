// What is printed of a line that was not read, where its words have memory.
use crate::not_read;
use std::alloc::AllocError;
use std::io::{self, ErrorKind};
use test_words::Fault;

#[test]
fn want_of_memory_is_an_error_and_no_line(rt: HostRuntime) -> io::Result<()> {
    match not_read(&rt, "call", Fault::NoMemory(AllocError)) {
        Err(_) => not_read(&rt, "call", Fault::UnknownCall),
        Ok(()) => Err(ErrorKind::Other.into()),
    }
}
