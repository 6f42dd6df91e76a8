// What is wrong with a line that is no call, with words of any length.
use crate::BareFault;
use std::alloc::{AllocError, Global};
use thiserror::Error;

// The first fault from the left; or there is no memory to read the line.
#[derive(Debug, Drop, Error)]
pub enum Fault {
    #[error("unknown call")]
    UnknownCall,
    #[error("unknown word")]
    UnknownWord,
    // The word that stands nowhere.
    #[error("{0} is missing")]
    MissingWord(String),
    // The word with no number after it.
    #[error("{0} has no number")]
    MissingNumber(String),
    #[error("too many numbers")]
    TooManyNumbers,
    #[error("number too large")]
    LargeNumber,
    #[error("too much room")]
    TooMuchRoom,
    #[error(transparent)]
    NoMemory(#[from(alloc)] AllocError),
}

impl Fault {
    // The fault of bare words, where this word was asked for, which is said whole. Words are read and never written: `Unwritten` is none of theirs.
    pub(crate) fn of(alloc: Global, word: &str, fault: BareFault) -> Result<Fault, AllocError> {
        Ok(match fault {
            BareFault::UnknownCall => Fault::UnknownCall,
            BareFault::UnknownWord => Fault::UnknownWord,
            BareFault::MissingWord(_) => Fault::MissingWord(String::from_str(alloc, word)?),
            BareFault::MissingNumber(_) => Fault::MissingNumber(String::from_str(alloc, word)?),
            BareFault::TooManyNumbers => Fault::TooManyNumbers,
            BareFault::LargeNumber => Fault::LargeNumber,
            BareFault::TooMuchRoom => Fault::TooMuchRoom,
            BareFault::Unwritten(_) => Fault::NoMemory(AllocError),
        })
    }
}
