// Answers as texts behind the line of their call, and the number of what turned a call away.
use generator::Refusal;
use std::fmt;
use std::fmt::Display;
use test_tools::{List, change};
use test_words::BareFault;

// A refusal, said by its number. `Refusal` itself has no `Display`: the library has no texts, and each program says a refusal in its own.
#[derive(Clone, Copy)]
pub struct Refused(pub Refusal);

impl Display for Refused {
    fn fmt<W: fmt::Write>(&self, f: &mut fmt::Formatter<W>) -> fmt::Result {
        let number = u8::from(self.0);
        write!(f, "refused {number}")
    }
}

// Prints what a call answered.
pub fn answered<D: Display + Drop>(rt: &impl Print, answer: D) -> Result<(), BareFault> {
    print!(rt; ": {answer}")?;
    Ok(())
}

// What turned the call away, and whether everything that was lent is as it was. Where nothing is lent the last arm of a match says the number:
// `told(rt, answer, |found| match found { .. })` would take that arm away, and bring a closure, its bound and its clause.
pub fn turned_away(rt: &impl Print, refusal: Refusal, kept: bool) -> Result<(), BareFault> {
    answered(rt, format_args!("{}, {}", Refused(refusal), change(kept)))
}

// What a lent buffer holds after the call, or what turned the call away.
pub fn done<T: Display>(
    rt: &impl Print,
    answer: Result<(), Refusal>,
    after: &[T],
    kept: bool,
) -> Result<(), BareFault> {
    match answer {
        Ok(()) => answered(rt, format_args!("done{}", List(after))),
        Err(refusal) => turned_away(rt, refusal, kept),
    }
}
