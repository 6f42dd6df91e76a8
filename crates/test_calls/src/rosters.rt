// The calls of a roster, which is kept from line to line; after a start or an event the answer says which nodes are present.
use crate::{Refused, answered, bare_last_buffer, turned_away};
use generator::Refusal;
use roster::{Listing, Roster};
use std::fmt;
use test_tools::{List, MARK, change, untouched};
use test_words::{BareFault, BareWords};

// A roster with no node, as there is before the first start and after one that was turned away.
pub fn nobody() -> Roster {
    Roster {
        marks: [false; 255],
        job: 0,
    }
}

// The nodes that are present.
#[derive(Clone, Copy)]
struct Present<'a>(&'a [bool; 255]);

impl fmt::Display for Present<'_> {
    fn fmt<W: fmt::Write>(&self, f: &mut fmt::Formatter<W>) -> fmt::Result {
        write!(f, "present")?;
        for (node, mark) in self.0.iter().enumerate() {
            if *mark {
                write!(f, " {node}")?;
            }
        }
        Ok(())
    }
}

// The nodes that are present after a call, behind what turned it away, where something did.
fn stepped(rt: &impl Print, roster: &Roster, refusal: Option<Refusal>) -> Result<(), BareFault> {
    let nodes = Present(&roster.marks);
    match refusal {
        None => answered(rt, nodes),
        Some(refusal) => answered(rt, format_args!("{}, {nodes}", Refused(refusal))),
    }
}

pub fn start(rt: &impl Print, words: &mut BareWords, roster: &mut Roster) -> Result<(), BareFault> {
    let record = words.record()?;
    words.end()?;
    let started = Roster::start(&record);
    *roster = started.unwrap_or(nobody());
    stepped(rt, roster, started.err())
}

// A node leaves or returns; where that is turned away the roster stays.
pub fn event<F: FnOnce(Roster, &[u8], u32) -> Result<Roster, Refusal>>(
    rt: &impl Print,
    words: &mut BareWords,
    roster: &mut Roster,
    call: F,
) -> Result<(), BareFault>
    requires { F.IsAlwaysCallable call }
{
    let record = words.record()?;
    let node = words.number("node")?;
    words.end()?;
    let answer = call(*roster, &record, node);
    *roster = answer.unwrap_or(*roster);
    stepped(rt, roster, answer.err())
}

// The list that was written, or why it was not and whether every byte is as it was.
fn listed(rt: &impl Print, answer: Result<Listing, Refusal>, out: &[u8]) -> Result<(), BareFault> {
    let kept = untouched(MARK, out);
    match answer {
        Ok(Listing::Written) => answered(rt, format_args!("done{}", List(out))),
        Ok(Listing::TooFew) => answered(rt, format_args!("too few, {}", change(kept))),
        Err(refusal) => turned_away(rt, refusal, kept),
    }
}

pub fn lowest(rt: &impl Print, words: &mut BareWords, roster: &Roster) -> Result<(), BareFault> {
    let record = words.record()?;
    let mut out = bare_last_buffer(words, MARK)?;
    let answer = roster.lowest(&record, &mut out);
    listed(rt, answer, &out)
}

// The job's list, then the number of the next job.
pub fn job(rt: &impl Print, words: &mut BareWords, roster: &mut Roster) -> Result<(), BareFault> {
    let record = words.record()?;
    let mut out = bare_last_buffer(words, MARK)?;
    let answer = roster.next_job(&record, &mut out);
    listed(rt, answer, &out)?;
    print!(rt; ", next job {}", roster.job)?;
    Ok(())
}
