// Calls in words, one a line, read strictly: a name and the record's bytes, then words with the numbers that they stand for, in base ten.
// Each word and each number but the name stands after one space.
#![tactic(auto)]

mod bare_fault;
mod bare_words;
mod fault;
#[cfg(test)]
mod tests;
mod words;

pub use bare_fault::BareFault;
pub use bare_words::BareWords;
pub use fault::Fault;
pub use words::{Words, is_comment};
