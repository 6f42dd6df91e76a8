// Works the tables of the field of 256 elements out from 0x11D alone, and writes them: the powers of 2 from exponent 0 to 254, then the
// logarithms of 1 to 255, a number a line.
#![tactic(auto)]

mod logarithms;
mod powers;
mod tables_text;

use std::io;

// Each program has a `main` of its own; the text is written by `tables_text`.
fn main(rt: HostRuntime) -> io::Result<()> {
    let mut page = text::page();
    let end = tables_text::tables(&mut page);
    rt.write_all(&page[..end])
}
