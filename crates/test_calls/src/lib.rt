// Calls in words that need no block, a function each: it reads the words after the name, makes the call, and prints the answer.
// Beside them what all calls in words lend, and the texts that their answers share.
#![tactic(auto)]

mod answers;
mod bare_buffers;
mod buffers;
pub mod counts;
pub mod lanes;
pub mod plans;
pub mod rosters;
#[cfg(test)]
mod tests;

pub use answers::{Refused, answered, done, turned_away};
pub use bare_buffers::{bare_buffer, bare_last_buffer, written};
pub use buffers::{buffer, last_buffer};
