// Reads a record from standard input and writes the plain layout of its code. At most eight bytes are taken: a longer record meets number 2.
#![tactic(auto)]

use std::io;

// Each program has a `main` of its own; what they share is `input::answer`.
fn main(rt: HostRuntime) -> io::Result<()> {
    input::answer(&rt, &mut plain_text::page(), plain_text::plain)
}
