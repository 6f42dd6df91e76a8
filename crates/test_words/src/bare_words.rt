// The words of a line, from left to right, read with no memory of their own.
ghost use Rattle.std.specs.Prelude.{◌≡◌, ◌≤◌, IfOk, length, MatchOption};
ghost use Rattle.arrayvec.specs.ArrayVec.{array_vec_len};

use crate::BareFault;
use arrayvec::{ArrayString, ArrayVec};
use std::str::{self, FromStr};

// The most numbers of a list, and the most room for one that is written.
const MOST: usize = 64;

fn is_number(word: &str) -> bool {
    !word.is_empty() && word.bytes().all(|b| b.is_ascii_digit())
}

// A copy of a word, or nothing where it has more than 16 bytes: the words of the calls of this repository have fewer.
fn copy(word: &str) -> ArrayString<16>
    ensures { length word.now ≤ 16 → result.bytes ≡ word.now }
{
    ArrayString::from(word).unwrap_or(ArrayString::new())
}

// The words that are still to be read; none where the last one has been.
#[derive(Clone, Copy)]
pub struct BareWords<'a> {
    rest: Option<&'a [u8]>,
}

impl<'a> BareWords<'a> {
    pub fn new(line: &'a [u8]) -> BareWords<'a>
        ensures { MatchOption result.rest ⊥ (λ rest. rest.now ≡ line.now) }
    {
        BareWords { rest: Some(line) }
    }

    // The next word.
    fn peek(&self) -> Option<&'a [u8]> {
        self.rest?.split(|b| *b == b' ').next()
    }

    // Goes past the next word.
    fn next(&mut self) -> Option<&'a [u8]> {
        let word = self.peek()?;
        self.rest = self.rest?.get(word.len() + 1..);
        Some(word)
    }

    // The first word of the line. A byte that is no text stands in a name that no call has.
    pub fn name(&mut self) -> &'a str {
        let name = self.next().unwrap_or(b"");
        str::from_utf8(name).unwrap_or("")
    }

    // What is wrong where another word than this one stands: this one is missing, or the other one is unknown there.
    fn misplaced(&self, word: &str) -> BareFault {
        let rest = self.rest.unwrap_or(b"");
        if rest
            .split(|b| *b == b' ')
            .any(|next| next == word.as_bytes())
        {
            BareFault::UnknownWord
        } else {
            BareFault::MissingWord(copy(word))
        }
    }

    // Goes past the next word, which must be this one.
    fn pass(&mut self, word: &str) -> Result<(), BareFault> {
        match self.next() {
            Some(next) if next == word.as_bytes() => Ok(()),
            _ => Err(self.misplaced(word)),
        }
    }

    // The next word, if it is a number.
    fn numeral(&mut self) -> Option<&'a str> {
        let word = str::from_utf8(self.peek()?).ok()?;
        if !is_number(word) {
            return None;
        }
        self.next();
        Some(word)
    }

    // The numbers that follow, at most so many.
    fn numbers<T: FromStr + Default + Drop>(
        &mut self,
        most: usize,
    ) -> Result<ArrayVec<T, 64>, BareFault>
    where
        T::Err: Drop,
        requires { most ≤ 64 }
        ensures { IfOk result (λ v. array_vec_len v ≤ most) }
    {
        let mut numbers = ArrayVec::new();
        for _ in 0..most {
            let Some(numeral) = self.numeral() else {
                return Ok(numbers);
            };
            let number = numeral.parse().or(Err(BareFault::LargeNumber))?;
            numbers.push(number);
        }
        match self.numeral() {
            None => Ok(numbers),
            Some(_) => Err(BareFault::TooManyNumbers),
        }
    }

    // The bytes of the record, which has no word of its own.
    pub fn record(&mut self) -> Result<ArrayVec<u8, 64>, BareFault>
        ensures { IfOk result (λ v. array_vec_len v ≤ 64) }
    {
        self.numbers(MOST)
    }

    // A word and bytes.
    pub fn bytes(&mut self, word: &str) -> Result<ArrayVec<u8, 64>, BareFault>
        ensures { IfOk result (λ v. array_vec_len v ≤ 64) }
    {
        self.pass(word)?;
        self.numbers(MOST)
    }

    // A word and one number.
    pub fn number(&mut self, word: &str) -> Result<u32, BareFault> {
        self.pass(word)?;
        match self.numbers(1)?.first() {
            Some(number) => Ok(*number),
            None => Err(BareFault::MissingNumber(copy(word))),
        }
    }

    // The length of a buffer that is written.
    pub fn room(&mut self) -> Result<usize, BareFault>
        ensures { IfOk result (λ room. room ≤ 64) }
    {
        let room = self.number("room")? as usize;
        if MOST < room {
            return Err(BareFault::TooMuchRoom);
        }
        Ok(room)
    }

    // Every word has been read.
    pub fn end(&mut self) -> Result<(), BareFault> {
        match self.next() {
            None => Ok(()),
            Some(_) => Err(BareFault::UnknownWord),
        }
    }
}
