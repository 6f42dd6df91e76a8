// What is wrong with a line that is no call, said with no memory.
use arrayvec::ArrayString;
use std::io;
use thiserror::Error;

// The first fault from the left; or the answer could not be written. A word is a copy of its own here: with a lent one, `&'static str`, the
// borrow checker does not cover the functions that answer with a fault.
#[derive(Debug, Drop, Error)]
pub enum BareFault {
    #[error("unknown call")]
    UnknownCall,
    #[error("unknown word")]
    UnknownWord,
    // The word that stands nowhere.
    #[error("{0} is missing")]
    MissingWord(ArrayString<16>),
    // The word with no number after it.
    #[error("{0} has no number")]
    MissingNumber(ArrayString<16>),
    #[error("too many numbers")]
    TooManyNumbers,
    #[error("number too large")]
    LargeNumber,
    #[error("too much room")]
    TooMuchRoom,
    #[error(transparent)]
    Unwritten(#[from] io::Error),
}
