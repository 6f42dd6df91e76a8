// What turns a call away: 18, 8, 9, 11, in this order; and else what carries the bytes.
ghost use Rattle.std.specs.Prelude.{◌≡◌};
ghost use Rattle.carry.specs.Promise.{long_bad, part_bad, carried_len_fault, carry_in_fault, carry_out_fault, carry_change_fault};
ghost use Rattle.carry.specs.Inner.Kinds.{Tested};

use crate::kinds::Carrying;
use generator::{Code, Refusal};
use refusals::{length_bad, symbols_bad};

// More bytes than 2^62.
#[tactic(auto, unfolding(crate::specs::Promise::long_bad))]
fn long_bad(n: usize) -> bool
    ensures { result ≡ long_bad n }
{
    4611686018427387904 < n
}

// carried_len: 18 before 8, for the record settles the lengths.
#[tactic(auto, using(generator::proofs::Answered::giving_tests), unfolding(crate::specs::Promise::carried_len_fault))]
pub fn carried_len_fault(code: Code, n: usize) -> Result<Carrying, Refusal>
    ensures { Tested result code.header (carried_len_fault code.header n) }
{
    let carrying = Carrying::try_from(code)?;
    Refusal::Length.when(long_bad(n))?;
    Ok(carrying)
}

// carry_in
#[tactic(auto, using(generator::proofs::Answered::giving_tests), unfolding(crate::specs::Promise::carry_in_fault))]
pub fn carry_in_fault(code: Code, n: usize, long: usize) -> Result<Carrying, Refusal>
    ensures { Tested result code.header (carry_in_fault code.header n long) }
{
    let carrying = carried_len_fault(code, n)?;
    Refusal::Length.when(length_bad(carrying.carried_length(n), long))?;
    Ok(carrying)
}

// carry_out
#[tactic(auto, using(generator::proofs::Answered::giving_tests), unfolding(crate::specs::Promise::carry_out_fault))]
pub fn carry_out_fault(code: Code, n: usize, symbols: &[u8]) -> Result<Carrying, Refusal>
    ensures { Tested result code.header (carry_out_fault code.header n symbols.now) }
{
    let carrying = carry_in_fault(code, n, symbols.len())?;
    Refusal::Symbol.when(symbols_bad(code.header, symbols))?;
    Ok(carrying)
}

// A part that ends behind n bytes.
#[tactic(auto, unfolding(crate::specs::Promise::part_bad))]
fn part_bad(n: usize, at: usize, count: usize) -> bool
    ensures { result ≡ part_bad n at count }
{
    at.checked_add(count).is_none_or(|end| n < end)
}

// carry_change
#[tactic(auto, using(generator::proofs::Answered::giving_tests), unfolding(crate::specs::Promise::carry_change_fault))]
pub fn carry_change_fault(
    code: Code,
    n: usize,
    at: usize,
    count: usize,
    symbols: &[u8],
) -> Result<Carrying, Refusal>
    ensures { Tested result code.header (carry_change_fault code.header n at count symbols.now) }
{
    let carrying = carry_in_fault(code, n, symbols.len())?;
    Refusal::Range.when(part_bad(n, at, count))?;
    Refusal::Symbol.when(symbols_bad(code.header, symbols))?;
    Ok(carrying)
}
