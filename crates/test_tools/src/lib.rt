// What the test programs share: the texts of answers and of lines that were not read, checksums.
#![tactic(auto)]

mod answers;
mod data;
mod print;
#[cfg(test)]
mod tests;

pub use answers::{Block, List, change};
pub use data::{MARK, sum, untouched};
pub use print::{bare_not_read, not_read};
