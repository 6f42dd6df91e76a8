// Reads n and k from standard input, a byte each, and writes a record for n nodes of which k are needed that carries bytes, and what it
// costs. At most eight bytes are taken.
#![tactic(auto)]

use std::io;

// Each program has a `main` of its own; what they share is `input::answer`.
fn main(rt: HostRuntime) -> io::Result<()> {
    input::answer(&rt, &mut record_text::page(), record_text::record)
}
