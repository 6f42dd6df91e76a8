// Reads a record from standard input and writes how many of its messages have a word of each Hamming weight: a line `w count`
// for each w from 0 to n. At most eight bytes are taken: a longer record meets number 2.
#![tactic(auto)]

use std::io;

// Each program has a `main` of its own; what they share is `input::answer`.
fn main(rt: HostRuntime) -> io::Result<()> {
    input::answer(&rt, &mut weights_text::page(), weights_text::weights)
}
