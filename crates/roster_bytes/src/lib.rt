// Rosters as 256 bytes that a caller lends: the marks of the nodes 0 to 254, then the number of the next job.
// What the calls promise stands in specs/Calls.antt.
#![tactic(auto)]

mod bytes;
mod calls;

pub use calls::{leave, lowest, next_job, rejoin, start};
