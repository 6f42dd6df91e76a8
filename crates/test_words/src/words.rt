// The words of a line, from left to right, and the memory in which their lists lie.
ghost use Rattle.std.specs.Prelude.{◌≡◌, ◌≤◌, ◌↔◌, IsTrue, IfSome, IfOk, slice_get, vec_len, MatchOption};

use crate::{BareWords, Fault};
use std::alloc::Global;

// Whether a line is empty or a comment: its first byte is no other than '#'.
pub fn is_comment(line: &[u8]) -> bool
    ensures { IsTrue result ↔ IfSome (slice_get line.now 0) (λ b. b ≡ 35) }
{
    line.first().is_none_or(|b| *b == b'#')
}

// The words that are still to be read. What needs no memory takes `bare`.
#[derive(Clone, Copy)]
pub struct Words<'a> {
    alloc: Global,
    pub bare: BareWords<'a>,
}

impl<'a> Words<'a> {
    pub fn new(alloc: Global, line: &'a str) -> Words<'a>
        ensures { MatchOption result.bare.rest ⊥ (λ rest. rest.now ≡ line.now) }
    {
        Words {
            alloc,
            bare: BareWords::new(line.as_bytes()),
        }
    }

    // Lends the memory in which the lists of the line lie, and the texts that are made of them.
    pub fn alloc(&self) -> Global {
        self.alloc
    }

    // The first word of the line.
    pub fn name(&mut self) -> &'a str {
        self.bare.name()
    }

    // The bytes of the record, which has no word of its own.
    pub fn record(&mut self) -> Result<Vec<u8>, Fault>
        ensures { IfOk result (λ v. vec_len v ≤ 64) }
    {
        match self.bare.record() {
            Ok(record) => Ok(Vec::from_slice(self.alloc, &record)?),
            Err(fault) => Err(Fault::of(self.alloc, "", fault)?),
        }
    }

    // A word and bytes.
    pub fn bytes(&mut self, word: &str) -> Result<Vec<u8>, Fault>
        ensures { IfOk result (λ v. vec_len v ≤ 64) }
    {
        match self.bare.bytes(word) {
            Ok(bytes) => Ok(Vec::from_slice(self.alloc, &bytes)?),
            Err(fault) => Err(Fault::of(self.alloc, word, fault)?),
        }
    }

    // A word and one number.
    pub fn number(&mut self, word: &str) -> Result<u32, Fault> {
        match self.bare.number(word) {
            Ok(number) => Ok(number),
            Err(fault) => Err(Fault::of(self.alloc, word, fault)?),
        }
    }

    // The length of a buffer that is written.
    pub fn room(&mut self) -> Result<usize, Fault>
        ensures { IfOk result (λ room. room ≤ 64) }
    {
        match self.bare.room() {
            Ok(room) => Ok(room),
            Err(fault) => Err(Fault::of(self.alloc, "room", fault)?),
        }
    }

    // Every word has been read.
    pub fn end(&mut self) -> Result<(), Fault> {
        match self.bare.end() {
            Ok(()) => Ok(()),
            Err(fault) => Err(Fault::of(self.alloc, "", fault)?),
        }
    }
}
