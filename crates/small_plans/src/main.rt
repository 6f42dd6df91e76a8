// Writes every accepted record of kind 1 with p up to 31: a line `p root n k` for each, by p, then by the root, then by k.
#![tactic(auto)]

use std::io;

// Each program has a `main` of its own; the text is written by `small_plans_text`.
fn main(rt: HostRuntime) -> io::Result<()> {
    let mut page = small_plans_text::page();
    let end = small_plans_text::small_plans(&mut page);
    rt.write_all(&page[..end])
}
