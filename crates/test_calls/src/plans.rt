// A record's plan, or what turns the record away.
ghost use Rattle.std.specs.Prelude.{◌≤◌, length};

use crate::{Refused, answered};
use arrayvec::ArrayVec;
use generator::Refusal;
use plan::Plan;
use std::fmt;
use test_tools::{Block, untouched};
use test_words::{BareFault, BareWords};

// A list at the front of its places, and whether those after it hold 0.
#[derive(Clone, Copy)]
struct Front<'a> {
    list: &'a [u8],
    padded: bool,
}

impl<'a> Front<'a> {
    // The list of so many of the places.
    fn new(places: &'a [u8; 255], count: u8) -> Self {
        let (list, rest) = places.split_at(count as usize);
        Front {
            list,
            padded: untouched(0, rest),
        }
    }
}

impl fmt::Display for Front<'_> {
    fn fmt<W: fmt::Write>(&self, f: &mut fmt::Formatter<W>) -> fmt::Result {
        let rest = if self.padded { "0" } else { "others" };
        write!(f, "{} then {rest}", Block(self.list))
    }
}

// The bytes of symbols: two each where they are wide, the high one first, else one, which is 255 for a symbol that no byte holds.
// A width in place of the bool would be made of the same test of the first byte, and be taken apart again by `if width == 2`.
fn bytes_of(symbols: &[u16], wide: bool) -> ArrayVec<u8, 510>
    requires { length symbols.now ≤ 255 }
{
    let mut bytes = ArrayVec::new();
    for x in symbols {
        if wide {
            let [high, low] = x.to_be_bytes();
            bytes.push(high);
            bytes.push(low);
        } else {
            bytes.push(u8::try_from(*x).unwrap_or(255));
        }
    }
    bytes
}

// The numbers, the shifts, the first nodes and the base word.
fn accepted(rt: &impl Print, plan: &Plan, wide: bool) -> Result<(), BareFault> {
    let Plan {
        n,
        k,
        d,
        low,
        high,
        ..
    } = *plan;
    let (word, rest) = plan.base.split_at(n as usize);
    let bytes = bytes_of(word, wide);
    let shifts = Front::new(&plan.shifts, k);
    let firsts = Front::new(&plan.firsts, k);
    let base = Front {
        list: &bytes,
        padded: untouched(0, rest),
    };
    answered(
        rt,
        format_args!(
            "n {n} k {k} d {d} reads {low} {high} shifts{shifts} firsts{firsts} base{base}"
        ),
    )
}

// The plan, or what turned the record away. Then there are no places: that all are 0 is what the reference writes of them.
fn planned(rt: &impl Print, answer: Result<Plan, Refusal>, wide: bool) -> Result<(), BareFault> {
    match answer {
        Ok(plan) => accepted(rt, &plan, wide),
        Err(refusal) => answered(rt, format_args!("{}, all places 0", Refused(refusal))),
    }
}

// A symbol has two bytes in a record of kind 3, and else one.
pub fn plan(rt: &impl Print, words: &mut BareWords) -> Result<(), BareFault> {
    let record = words.record()?;
    words.end()?;
    let wide = record.first() == Some(&3);
    planned(rt, plan::build_plan(&record), wide)
}
