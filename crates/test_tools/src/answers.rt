// Texts of answers.
ghost use Rattle.std.specs.Prelude.{◌≡◌, if◌then◌else◌, codes};

use crate::data::sum;
use std::fmt;
use std::fmt::Display;

// Numbers, each after a space.
#[derive(Clone, Copy)]
pub struct List<'a, T>(pub &'a [T]);

impl<T: Display> Display for List<'_, T> {
    fn fmt<W: fmt::Write>(&self, f: &mut fmt::Formatter<W>) -> fmt::Result {
        for x in self.0 {
            write!(f, " {x}")?;
        }
        Ok(())
    }
}

// Each byte after a space, or how many there are and their checksum where there are more than 64.
#[derive(Clone, Copy)]
pub struct Block<'a>(pub &'a [u8]);

impl Display for Block<'_> {
    fn fmt<W: fmt::Write>(&self, f: &mut fmt::Formatter<W>) -> fmt::Result {
        let bytes = self.0;
        if bytes.len() <= 64 {
            write!(f, "{}", List(bytes))
        } else {
            write!(f, " {} bytes sum {}", bytes.len(), sum(bytes))
        }
    }
}

// What became of everything that was lent.
pub fn change(kept: bool) -> &'static str
    ensures { result.now ≡ (if kept then codes "unchanged" else codes "changed") }
{
    if kept { "unchanged" } else { "changed" }
}
